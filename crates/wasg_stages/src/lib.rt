//! The stages of initial allocation as problems of choice.
//!
//! A stage allots some of the units, each one of its alternatives, so that no resource holds more
//! movements than what earlier stages left of its limit, to new entrants their share of that. The
//! problem of a stage has the same units, alternatives, costs, uses and limits as plain numbers,
//! and its choices are the allotments of the stage. See WASG on the order of initial allocation.
#![tactic(auto)]

mod choosers;
mod earlier;
pub mod laws;
mod limits;
mod parts;
mod problems;

pub use earlier::Earlier;
pub use problems::{allotment_problem, problem_after, stage_problem, units_of_stage};
