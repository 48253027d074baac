//! The capacity windows of a declaration: their numbers and limits, which of them hold a movement,
//! and the windows that the movements of one stop of a series use, in strips.
//!
//! A capacity line declares rolling windows: on each day of the season one of `length` minutes for
//! each start from `from` to `to`, a step apart. No window may hold more than `limit` movements of
//! the line's kind. See WASG on declared capacity, and Zografos, Salouras and Madas 2012 on rolling
//! windows.
#![tactic(auto)]

mod band;
mod counting;
pub mod laws;
mod limits;
mod movement;
mod resource;
mod spreading;
mod stop_dates;
mod windows;

pub use movement::Movement;
pub use windows::Windows;
