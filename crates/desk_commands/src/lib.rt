//! The commands of the desk: the steps of each, what it writes and what is printed, as definitions;
//! the commands whose work is that of the files that they read; and what the others need.
#![tactic(auto)]

mod allocate;
mod amend;
mod commands;
mod ending;
mod files;
mod inspect;
mod inspection;
pub mod laws;
mod make;
mod recheck;
mod reclear;
mod report;
mod season;
mod service_lines;
mod stage_lines;
mod stop;
mod trial;
mod usage;
mod waits;
mod writes;

pub use commands::{
    carry_out_allocate, carry_out_amend, carry_out_inspect, carry_out_make, carry_out_recheck,
    carry_out_reclear, carry_out_report, carry_out_trial, carry_out_usage,
};
pub use ending::{finish, yes};
pub use season::{Proved, read_certificate, read_proved, read_season};
pub use service_lines::{MOST_ENTRIES, ServiceOutput, tell_resumed, tell_served};
pub use stop::{Answer, Limit, NoJournal, Stop};
pub use writes::write_one;
