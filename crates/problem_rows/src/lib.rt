//! Tests of the crates on problems of units and alternatives: small problems worked by hand, as
//! tables of rows.
#![tactic(auto)]

#[cfg(test)]
mod bounds;
#[cfg(test)]
mod choices;
#[cfg(test)]
mod closed;
#[cfg(test)]
mod counts;
#[cfg(test)]
mod crowds;
#[cfg(test)]
mod draws;
#[cfg(test)]
mod fixings;
#[cfg(test)]
mod leaves;
#[cfg(test)]
mod many_vectors;
#[cfg(test)]
mod narrowed;
#[cfg(test)]
mod open;
#[cfg(test)]
mod parted;
#[cfg(test)]
mod problems;
#[cfg(test)]
mod reduced;
#[cfg(test)]
mod relaxed;
#[cfg(test)]
mod texts;
#[cfg(test)]
mod ties;
#[cfg(test)]
mod visits;
