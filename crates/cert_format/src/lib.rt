//! Certificates as text: one spelling for each certificate.
#![tactic(auto)]

mod blocks;
mod cert;
mod extra;
mod fault;
mod laws;
mod place;
mod printable;
mod printed_lines;
mod printing;
mod reading;
mod rows;
mod tokens;

pub use cert::{
    Certificate, Floor, FloorList, LONGEST_CERT, MOST_BUDGET, MOST_LINES, MOST_NODES,
    MOST_SEASON_BYTES, Mark, StageCert, StageList,
};
pub use extra::{print_extra, read_extra};
pub use fault::CertFault;
pub use laws::{line_counts, proven_stage, season_bytes};
pub use printable::{is_printable, is_printable_extra};
pub use printing::print_cert;
pub use reading::read_cert;
