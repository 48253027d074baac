//! What a search answers.

use choice_problem::{Choice, Tree, VectorList};

/// What a search of a problem answers, with its tree and the vectors that the leaves of the tree
/// name: number 1 is the root vector, and those that were handed in have the numbers from 2 on.
#[derive(Drop)]
pub enum Outcome {
    /// The choice is feasible, and the tree proves that none costs less. No vector is listed behind
    /// the last one that a leaf names.
    Optimal {
        choice: Choice,
        cost: u64,
        tree: Tree,
        vectors: VectorList,
    },
    /// The tree proves that no choice is feasible. No vector is listed behind the last one that a
    /// leaf names.
    Infeasible {
        tree: Tree,
        vectors: VectorList,
    },
    /// The budget of visits is spent, and undone nodes are left. All vectors of the search are
    /// listed.
    Spent {
        best: Option<Choice>,
        tree: Tree,
        vectors: VectorList,
    },
}
