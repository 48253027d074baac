//! The book of slots that are held: what is confirmed and what is offered, and what an amendment
//! changes.
#![tactic(auto)]

mod answer;
mod best;
mod book;
mod change;
mod cuts;
mod finding;
mod holding;
pub mod laws;
mod levels;
mod lines;
mod listing;
mod loads;
mod places;
mod room;
mod rows;
mod start;
mod step;
mod steps;
mod trials;
mod uses;

pub use answer::{Answer, Entry};
pub use book::{Book, Hint, MOST_NEW_FLIGHTS, asks_new};
pub use holding::{Holding, HoldingList, State};
pub use lines::clashes;
pub use room::Room;
