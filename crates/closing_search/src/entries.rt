//! A tree while it grows.

use crate::pieces::bit_of;
use crate::rules::Rule;

/// A node of a tree that grows.
#[derive(Clone, Copy, Debug)]
pub(crate) enum Entry {
    // It is still open.
    Open,
    // The bound of this vector closes it.
    Closed(u32),
    // It is split, and its parts are these entries.
    Split {
        unit: u32,
        rule: Rule,
        low: u32,
        high: u32,
    },
}

/// Whether an entry is open.
pub(crate) fn has_open(entries: &[Entry]) -> bool {
    for entry in entries {
        if let Entry::Open = entry {
            return true;
        }
    }
    false
}

/// The vectors that close entries, as bits.
pub(crate) fn named_in(entries: &[Entry]) -> u128 {
    let mut named = 0;
    for entry in entries {
        if let Entry::Closed(vector) = entry {
            named |= bit_of(*vector);
        }
    }
    named
}
