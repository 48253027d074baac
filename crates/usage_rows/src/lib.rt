//! Tests of the usage watch: worked rows, as tables of text.
#![tactic(auto)]

#[cfg(test)]
mod rows;
#[cfg(test)]
mod usage;
