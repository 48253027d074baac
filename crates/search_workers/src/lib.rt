//! The search of a problem by workers: branch and bound (Land and Doig 1960) by visits of
//! `branch_tree`, with a budget of visits, over a tree that proves its answer.
//!
//! The caller visits parts until enough are open for all workers. Then rounds follow: each worker
//! claims open parts from a board, makes a tree in each, and shares the least cost with the others;
//! at the end of a round the trees take the places of the undone nodes that they are of, and a
//! further vector may join the list. What is answered does not speak of workers: it holds for every
//! number of them.
#![tactic(auto)]

mod growths;
mod looks;
mod opening;
mod outcomes;
mod places;
mod rounds;
mod searchers;
mod searches;
mod seats;
mod states;
mod tasks;
mod trees;

pub use outcomes::Outcome;
pub use searches::{search, search_from};
