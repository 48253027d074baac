//! The shared book: amendments of several callers in one history.
//!
//! A caller holds a pass. Each ask is answered in one turn on the book as it then is, and becomes
//! the next entry of the one history. What a journal adds is kept beside the history, in the same
//! turn.
#![tactic(auto)]

mod beside;
mod fault;
mod ledger;
mod nothing;
mod shared;
mod turns;

pub use beside::Beside;
pub use fault::{EnterFault, LedgerFault};
pub use ledger::{Ledger, Pass};
pub use nothing::Nothing;
pub use shared::{Origin, Shared, Start};
pub use turns::{SharedLedger, SharedPass};
