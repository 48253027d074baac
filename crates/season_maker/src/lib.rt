//! Generated seasons: a capacity file and a file of requests, made by a number and a count of
//! units.
//!
//! What is generated is defined by values: what is declared, and a message whose lines are the
//! units, each with the numbers that it draws. The text of the requests is the printed spelling of
//! that message (`scr_reader`), so it is read again as the message. The capacity file is defined by
//! its seven lines; by a law it declares what is said of the declaration.
#![tactic(auto)]

mod draws;
pub mod laws;
mod make;
mod units;

pub use make::make_season;
