//! What a visit of ranges answers.

use choice_problem::{Choice, Node};

/// What a visit of ranges answers: the first of the cases that applies.
#[derive(Drop)]
pub enum Visit {
    /// The ranges are closed, and this is their leaf: the lowest resource whose least load is above
    /// its limit; else vector 0, without prices, at scale 1; else vector 1, the root vector, at
    /// scale 1024; else the lowest further vector that closes, at scale 1024.
    Close(Node),
    /// The choice of each unit's first cheapest alternative fits. Its cost closes the ranges, and
    /// this is their leaf.
    Found(Choice, Node),
    /// Else the ranges are to be split: the unit's alternatives below the cut, and those from the
    /// cut on.
    Split { unit: u32, cut: u32 },
}
