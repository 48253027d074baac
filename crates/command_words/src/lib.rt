//! The words of a command line: which job they ask for. `clap` reads them.
#![tactic(auto)]

mod command;
mod job;
mod words;

pub use job::{Job, Name, NameList, WordFault};
pub use words::read_words;
