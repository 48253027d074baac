//! Sessions over links: messages that come in pieces of any size are answered one after the other,
//! and workers serve the links of their doors.
#![tactic(auto)]

mod amending;
mod doors;
mod pending;
mod responder;
mod session;
mod time_slices;
mod worker;

pub use amending::DeskCaller;
pub use doors::{MOST_DOORS, serve_doors, serve_journaled, serve_link};
pub use responder::AnswerFault;
pub use session::{SessionEnd, SessionFault};
pub use worker::{DoorEnd, DoorWork};
