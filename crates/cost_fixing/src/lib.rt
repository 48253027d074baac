//! Reduced-cost fixing: alternatives that no choice below a known cost takes, since the Lagrangian
//! bound with one of them fixed reaches the cost (Geoffrion and Marsten 1972, "Integer programming
//! algorithms"). A search of the problem that is left without them finds the same best choices
//! below the cost, in a smaller tree.
#![tactic(auto)]

mod fixings;
mod laws;
mod left;
mod numbers;
mod units;

pub use fixings::{Fixing, fixing_problem};
pub use laws::{alike_fixings, fixed_best, fixed_choices, left_problems, out_alternatives};
pub use left::{Left, left_of};
