//! The linear relaxation of a problem: each unit takes shares of its alternatives that add up to 1,
//! and no resource that matters is used above its limit.
//!
//! It is solved by a dual simplex with generalized upper bounds (Dantzig and Van Slyke 1967,
//! "Generalized upper bounding techniques"): one alternative of each unit is its key, so that the
//! basis has a row only for each resource with a price, and a resource gets its row when it is
//! passed. A pivot may change the keys of many units, so that many units of the same kind take few
//! pivots. All of it is in `f64` and bounded by a count of pivots. Nothing is promised of how good
//! its numbers are: bounds by its vectors are computed anew, in whole numbers, by others.
#![tactic(auto)]

mod carried;
mod entering;
mod inverses;
mod leaving;
mod named;
mod nearby;
mod programs;
mod relaxations;
mod slots;
mod steps;
mod totals;
mod touched;
mod vectors;

pub use leaving::Work;
pub use programs::{Column, NO_PART, Program};
pub use relaxations::{Relaxation, Share};
pub use steps::{End, Ended};
