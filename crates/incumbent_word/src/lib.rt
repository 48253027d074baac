//! The board of a parallel search: pieces and numbers that each worker draws once, and the least
//! cost that any of them has posted.
#![tactic(auto)]

mod board;
pub mod laws;
mod steps;
mod view;

pub use board::{Board, BoardEnd, BoardSeat};
pub use view::{Event, Terms, View, Worker};
