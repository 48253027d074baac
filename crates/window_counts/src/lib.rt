//! Counts of the uses of resources, kept while parts are added and taken away, in place of listing
//! all uses anew.
//!
//! A part stands for the resources that a movement series uses, in strips (`choice_problem`). The
//! counts always equal listing: each is the number of uses of its resource by the parts that were
//! added and not taken away.
#![tactic(auto)]

mod adding;
mod counts;
mod fitting;
mod having;
mod joint;
mod placing;

pub use counts::Counts;
pub use placing::{add_choice, place_alt};
