//! What is answered of a problem that was closed.

use choice_problem::{Choice, Tree, VectorList};
use cost_fixing::Fixing;

/// A best choice of a problem, or that it has none, with the tree that proves it and the vectors
/// that the leaves of the tree name by their numbers, from 1.
#[derive(Drop)]
pub enum Closed {
    /// The choice is feasible and has the cost, and the tree proves that no choice costs less: a
    /// tree of the problem that the fixing leaves, where there is one.
    Optimal {
        choice: Choice,
        cost: u64,
        fixing: Option<Fixing>,
        tree: Tree,
        vectors: VectorList,
    },
    /// The tree proves that no choice is feasible.
    Infeasible {
        tree: Tree,
        vectors: VectorList,
    },
}
