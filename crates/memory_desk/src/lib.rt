//! Runs of the desk over a cabinet, an output, doors and a disk in memory: what a run is given, and
//! what it leaves. For tests and drawn cases.
#![tactic(auto)]

mod clients;
mod fault;
mod given;
mod run;

pub use clients::{Clients, door_of, list_of};
pub use fault::RunFault;
pub use given::{Fails, File, Given, NO_FAILS};
pub use run::{RunEnd, run_desk, split_words};
