//! The capacity file: its lines in any order, and the declaration that they make.
#![tactic(auto)]

mod draft;
mod entries;
mod entry;
mod fault;
mod fields;
mod finish;
pub mod laws;
mod limits;
mod line;
mod reading;
mod values;
mod words;

pub use fault::{CapFault, CapLimit, CapWord};
pub use limits::{MOST_FLEX, USUAL_SHARE};
pub use reading::read_capacity;
