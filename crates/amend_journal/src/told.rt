//! What a ledger with a journal tells its callers.

use holding_book::Entry;

/// What the list of the turn has: an entry of the history, or behind them that the put of a caller
/// failed, with the count of the disk's faults then. Proofs alone have values of it.
#[derive(Drop)]
pub enum Told {
    Done(Entry),
    Broke { caller: u32, faults: u64 },
}

/// A put that failed: the number of its caller, and the count of the disk's faults behind it.
#[derive(Clone, Copy, Debug, PartialEq, Eq)]
pub struct Failure {
    pub caller: u32,
    pub faults: u64,
}
