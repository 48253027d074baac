//! Checks certificates of a season: no line of one fails, or the first that does is named with its
//! reason.
//!
//! Nothing here searches, and nothing trusts who made the certificate.
#![tactic(auto)]

mod checks;
mod kept_loads;
mod laws;
mod lines;
mod loads;
mod marked;
mod named;
mod nodes;
mod states;
mod trees;
mod verdict;

pub use checks::{check, check_stage};
pub use laws::{
    alike_proofs, one_failing_line, one_verdict, passing_lines, same_tests, tested_lines,
};
pub use verdict::{Reason, Verdict};
