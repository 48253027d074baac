//! The waiting list: asks for new slots that a book could not meet, as one more stage of
//! allocation.
//!
//! After amendments slots come free. The asks that were refused, and that clash with nothing that
//! is held, are given what the book leaves of the capacity, so that they are displaced least; and
//! the proof of that can be checked by itself. Nothing is entered in the book.
#![tactic(auto)]

mod fault;
mod given;
pub mod laws;
mod problem;
mod stage;
mod waiting;

pub use fault::WaitFault;
pub use given::allotted_states;
pub use problem::waiting_problem;
pub use stage::{recheck, reclear};
pub use waiting::Waiting;
