//! The slot coordination desk of one airport and one season, as one call over a cabinet of files,
//! a sink, doors at which clients come, and the disk of a journal. The commands that serve clients
//! stand here, and the check of a certificate; the others in `desk_commands`.
#![tactic(auto)]

mod check;
mod resume;
mod serve;
mod top_call;

pub use top_call::desk;
