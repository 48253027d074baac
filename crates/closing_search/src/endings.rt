//! What is answered of a search.

use choice_problem::{Choice, Vector};
use tested_trees::Closed;

/// How a search by free splits ended.
#[derive(Drop)]
pub enum Ending {
    /// The problem is closed.
    Closed(Closed),
    /// It is not closed. The choice, if there is one, is the best one that is known; and the vector
    /// is that of a relaxation of the whole problem, whose bound is mostly good.
    Open {
        best: Option<Choice>,
        vector: Vector,
    },
}
