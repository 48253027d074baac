//! The greatest flexibility, and the usual share of new entrants.

/// The most minutes by which a time may be moved to either side.
pub const MOST_FLEX: u64 = 120;

/// The share of new entrants, in per cent, where no line states it.
pub const USUAL_SHARE: u32 = 50;
