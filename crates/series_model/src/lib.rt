//! The model of a season's requests: units of lines, the times that each may be given, the
//! movements at those times, and their displacement.
//!
//! One time is chosen for each unit from its alternatives. Historic series come first by right; a
//! request costs the minutes by which its movements are moved. See WASG on historic precedence and
//! the order of initial allocation, and Zografos, Salouras and Madas 2012 on times per request,
//! turnaround time and total displacement.
#![tactic(auto)]

mod costs;
mod fault;
mod group;
pub mod laws;
mod message_units;
mod movements;
mod numbered;
mod options;
mod shifts;
mod stages;
mod state;
mod submission;
mod timed_line;
mod times;
mod unit;

pub use costs::{displacement, line_displacement};
pub use fault::ModelFault;
pub use group::Group;
pub use movements::movements_of;
pub use numbered::times_at;
pub use options::{are_same, line_times, options_of, shifts_of};
pub use stages::{after_stage, is_due, next_may_follow, stage_positions, states_after, states_of};
pub use state::UnitState;
pub use submission::Submission;
pub use timed_line::line_at;
pub use times::Times;
pub use unit::Unit;
