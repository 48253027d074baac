//! The resources of a problem that can matter. Most of a season's resources cannot be passed,
//! however its units choose; of the others many have the same users, of which the one with the
//! least limit stands for all; and many have users that are among those of another with no greater
//! limit. What is left is a few thousand of a million.
//!
//! All of it is a help for searches, whose answers are tested by the whole problem: promised is
//! only that each class that is kept names a resource of the problem, with its limit.
#![tactic(auto)]

mod candidates;
mod changes;
mod classes;
mod covered;
mod edges;
mod found;
mod greatest;
mod grids;
mod hits;
mod left_parts;
mod left_uses;
mod lists;
mod marks;
mod narrowed;
mod numbers;
mod outline;
mod part_uses;
mod reduce;
mod rows;
mod same_lists;
mod settled;
mod sums;
mod sweeps;
mod tally;
mod team;
mod user_runs;
mod users;
mod within;

pub use classes::{ClassUse, UserRun};
pub use narrowed::{NO_CLASS, Narrowed};
pub use reduce::Reduced;
