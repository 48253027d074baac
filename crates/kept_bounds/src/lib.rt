//! Bounds of vectors, kept while a walk over a tree changes ranges: whether a leaf of the tree
//! holds, at one step for each change of a range since a leaf last named its vector.
//!
//! Who checks a proof of others and who tests a tree of its own stand on the same kept bounds. The
//! tables of the vectors may be made before, by threads, or when a leaf first names a vector.
#![tactic(auto)]

mod bounds;
mod laws;
mod totals;

pub use bounds::{KeptBounds, NamedBound};
pub use laws::{agreeing_ranges, walked_bounds};
