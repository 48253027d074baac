//! Why a line of a capacity file or of a message is refused: which field, and what it lacks. The
//! readers of these files say at which line; a cause is found anew from the bytes of that line.
#![tactic(auto)]

mod capacity;
mod cause;
mod fields;
mod form;
pub mod laws;
mod requests;
mod seasons;
mod shape;
mod words;

pub use capacity::capacity_cause;
pub use cause::{Cause, FieldName, Flaw, HeaderName, LineWord, OtherCode};
pub use requests::{message_cause, submission_cause};
