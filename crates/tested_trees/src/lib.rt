//! The exact test of trees that a search found. How they were found is not proved and need not be:
//! what is answered passed the test of its tree, its vectors and its choice, in whole numbers and
//! by the definition of a proof.
#![tactic(auto)]

mod closed;
mod exact;
mod found;

pub use closed::Closed;
pub use found::{Found, accepted, are_listable, known_best};
