//! The vectors of prices that make Lagrangian bounds great (Geoffrion 1974, "Lagrangean relaxation
//! for integer programming"; Held, Wolfe and Crowder 1974, "Validation of subgradient
//! optimization").
//!
//! The root vector and the vector of ranges are the results of a subgradient run that the problem
//! determines. Its prices move on classes of equal resources, but for very great ones, and where
//! few resources can be passed, on these alone. The floor of ranges is the best that the bounds of
//! some vectors say; where ranges change unit by unit, it is read from what is kept of them.
#![tactic(auto)]

mod classes;
mod counts;
mod covers;
mod floors;
mod kept;
mod kept_floors;
mod loads;
mod passable;
mod points;
mod refine;
mod roots;
mod same;

pub use floors::{StatedFloor, floor_of};
pub use kept_floors::KeptFloors;
pub use passable::passable_resources;
pub use roots::{node_vector, root_vector};
