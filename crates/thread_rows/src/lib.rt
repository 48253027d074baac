//! Tests with threads: the board of a search, the turn, and the search by workers.
#![tactic(auto)]

#[cfg(test)]
mod boards;
#[cfg(test)]
mod searches;
#[cfg(test)]
mod turns;
