//! Problems of units and resources, without dates or flights. Each unit has alternatives, of which
//! one is chosen; an alternative has a cost and uses resources, and each resource has a limit. A
//! choice is feasible where no resource is used above its limit, and best where no feasible choice
//! costs less.
//!
//! Lagrangian bounds (Geoffrion 1974, "Lagrangean relaxation for integer programming") and branch
//! and bound prove that a choice is best, or that there is none: `leaf_closes` and `over_closes`
//! say when a leaf of a search tree is closed, and the laws say what a tree of closed leaves
//! proves.
#![tactic(auto)]

mod allowed;
mod choices;
mod closing;
mod laws;
mod nodes;
mod problems;
mod spans;
mod strips;
mod vectors;
mod walks;

pub use choices::{Choice, cost_of, first_above, first_above_limit, first_passed, fits};
pub use closing::{
    PRICED_SCALE, SCALE_BOUND, bound_passes, leaf_closes, least_uses, over_closes, priced_limits,
};
pub use laws::{
    alike_problems, closed_ranges, driven_tree, few_uses, fewer_vectors, floored_tree,
    node_vector_exists, part_ranges, price_vectors, search_start, sound_tree, split_trees,
    strip_list,
};
pub use nodes::{Node, Tree, count_nodes, greatest_named};
pub use problems::{
    Alt, Chooser, HIGHEST_COST, HIGHEST_LIMIT, MOST_RESOURCES, MOST_UNITS, MOST_USES, Problem,
};
pub use spans::Ranges;
pub use strips::{Part, Strip};
pub use vectors::{
    HIGHEST_PRICE, MOST_FURTHER, MOST_PRICES, MOST_VECTORS, Price, ROOT_STEPS, Vector, VectorList,
};
pub use walks::{RangeWalk, open_pieces};
