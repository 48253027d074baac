//! Drawn worlds of the desk: seasons, certificates, asks, reports, clients and journals by the
//! number of a case, whole or damaged, and what each command reads and writes.
#![tactic(auto)]

mod commands;
mod damage;
mod draws;
mod lines;
mod seasons;
mod texts;
mod worlds;

pub use commands::{COMMANDS, Command, has_name};
pub use draws::Draws;
pub use seasons::{HEAD, queries_text};
pub use texts::{
    are_same, begins, count_of, field, file_text, held_lines, number, put_bytes, put_text, word,
};
pub use worlds::{copied, damage_world, keep_writes, whole_world};
