//! What one step of a branch-and-bound search of a problem does: the greedy choice that it starts
//! from, and the visit of ranges of alternatives, which closes them, finds a choice, or says where
//! to split them.
#![tactic(auto)]

mod answers;
mod branching;
mod cheapest_first;
mod closings;
mod greedy_start;
mod kept;
mod laws;
mod least_uses;
mod listing;
mod placed;
mod ranks;
mod rows;
mod runs;
mod scans;
mod tallies;
mod uses;
mod visits;
mod walks;

pub use answers::Visit;
pub use greedy_start::greedy;
pub use laws::visited_nodes;
pub use visits::visit;
pub use walks::Walk;
