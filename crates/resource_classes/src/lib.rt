//! Classes of a problem's resources, each named by one resource that stands for all of it, and the
//! vectors of prices at them.
//!
//! Which resources stand for others is for the reduction above to find. Promised here is that each
//! class of a list names a resource of the problem, with its limit, and that a vector of prices is
//! one of the problem.
#![tactic(auto)]

mod classes;
mod vectors;

pub use classes::{Class, ClassList, marked_classes};
pub use vectors::priced_vector;
