//! The usage watch: which series of slots were operated often enough to have historic precedence,
//! and their lines for the next equivalent season.
#![tactic(auto)]

mod fault;
pub mod laws;
mod lines;
mod marks;
mod next;
mod operated;
mod printing;
mod reading;
mod report;
mod reported;
mod tally;
mod watching;
mod weekdays;

pub use fault::OperatedFault;
pub use lines::LineList;
pub use operated::{Operated, OperatedList};
pub use printing::print_next;
pub use reading::read_operated;
pub use tally::{FEWEST_DATES, LEAST_PER_CENT};
pub use watching::{Usage, watch};
