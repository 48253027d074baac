//! The run of a season: the four stages of initial allocation one after the other, each searched
//! and proved, and the certificate that they make.
#![tactic(auto)]

mod floors;
mod laws;
mod names;
mod seasons;
mod stages;
mod ties;
mod trials;

pub use laws::settled_run;
pub use seasons::{run_season, run_stage};
pub use stages::stage_cert;
pub use trials::{SMALL_BUDGET, StageEnd};
