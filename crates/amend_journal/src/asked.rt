//! A pair of the journal.

use scr_reader::Item;

/// The most pairs that a journal holds.
pub const MOST_PAIRS: u32 = 100_000;

/// A caller's number, and what it asked.
#[derive(Clone, Copy, Debug, PartialEq, Eq)]
pub struct Asked {
    pub caller: u8,
    pub ask: Item,
}
