//! A lock whose value has a history, of which each caller has seen a beginning.
#![tactic(auto)]

pub mod laws;
mod seat;
mod steps;
mod story;
mod turn;
mod view;

pub use seat::TurnSeat;
pub use story::Story;
pub use turn::Turn;
