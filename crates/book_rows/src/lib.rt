//! Tests of the book of slots and its ledgers, as tables of worked seasons: what each ask is
//! answered, and what is held after it; and how sessions over links end by such a ledger.
#![tactic(auto)]

#[cfg(test)]
mod answers;
#[cfg(test)]
mod asks;
#[cfg(test)]
mod books;
#[cfg(test)]
mod drawn;
#[cfg(test)]
mod draws;
#[cfg(test)]
mod journals;
#[cfg(test)]
mod ledgers;
#[cfg(test)]
mod lines;
#[cfg(test)]
mod listed;
#[cfg(test)]
mod sessions;
#[cfg(test)]
mod walk;
