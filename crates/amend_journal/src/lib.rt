//! The amendment journal: what was asked, kept on a disk before it is answered, so that a desk that
//! was stopped at any moment begins again with every answered entry.
//!
//! A journal is a file: a header of 16 bytes, and slots of 256 bytes. A slot has a gate, and behind
//! it one pair, a caller and what it asked. A slot counts where its gate is 1 and every slot before
//! it has gate 1; what lies behind the first other gate may be anything.
#![tactic(auto)]

mod again;
mod asked;
mod fault;
mod journal;
mod kept;
pub mod laws;
mod ledger;
mod open;
mod put;
mod read;
mod slot;
mod told;

pub use again::replayed;
pub use asked::{Asked, MOST_PAIRS};
pub use fault::OpenFault;
pub use journal::Journal;
pub use kept::JournalKept;
pub use ledger::{JournalFault, JournalLedger, JournalPass};
pub use put::SlotDisk;
pub use slot::Slot;
pub use told::{Failure, Told};
