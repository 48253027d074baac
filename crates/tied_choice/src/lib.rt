//! Another choice of a problem, of the same cost, after which a next problem may be met for less.
//!
//! A search proves what a problem's best choice costs, and not which one of that cost is taken.
//! Where a next problem is to be met after it, both are searched once more as one joint problem,
//! and what that search finds is tested: nothing else of it is proved, and need not be.
#![tactic(auto)]

mod entries;
mod joint;
mod pairs;
mod scales;
mod strips;
mod ties;

pub use ties::{MOST_JOINT_ALTS, MOST_JOINT_UNITS, tied_choice};
