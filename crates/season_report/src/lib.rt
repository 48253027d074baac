//! The report on a certificate of a season, as text: what was declared and decided, and for each
//! unit why it was given nothing cheaper.
//!
//! The answer stands in the certificate: in an optimal stage each cheaper alternative of each unit
//! is barred by a window, or by the night quota, while all others keep their times. The report
//! names the lowest of these windows, on how many dates, and by how much.
#![tactic(auto)]

mod airlines;
mod barred;
mod decided;
mod laws;
mod loads;
mod passed;
mod report;
mod rows;
mod stages;
mod tallies;
mod told;
mod tried;
mod units;

pub use decided::{Decided, Decision};
pub use laws::optimal_reasons;
pub use report::{report_text, season_tally};
