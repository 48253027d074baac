//! What data lines and queries say.

use season_days::Period;
use slot_text::Station;

/// A flight: its airline, whose third byte is 0 where the airline has two, its number up to 9999,
/// and a letter, or 0 where there is none.
#[derive(Clone, Copy, Debug, PartialEq, Eq, Hash)]
pub struct Flight {
    pub airline: [u8; 3],
    pub number: u16,
    pub suffix: u8,
}

/// A type of aircraft: three letters or digits.
#[derive(Clone, Copy, Debug, PartialEq, Eq)]
pub struct Craft(pub [u8; 3]);

/// What a line asks, or, from `K` on, what a line of a reply says.
#[derive(Clone, Copy, Debug, PartialEq, Eq)]
pub enum Code {
    /// New.
    N,
    /// New entrant.
    B,
    /// Historic, as before.
    F,
    /// The historic line that is to be changed.
    C,
    /// The change of a historic line, where times between the old and the new ones will do too.
    R,
    /// The change of a historic line to these times and no others. Under both codes the old times
    /// are kept where the change cannot be had.
    L,
    /// Deleted.
    D,
    /// An offer accepted.
    A,
    /// An offer declined.
    Z,
    /// Confirmed.
    K,
    /// Held.
    H,
    /// Offered.
    O,
    /// Refused.
    U,
    /// Not processed.
    W,
    /// Cancelled.
    X,
}

/// An arrival or a departure: the minute of its day in UTC, up to 1439, the first station as
/// written and the second, if there is one, and a letter for the service.
#[derive(Clone, Copy, Debug, PartialEq, Eq)]
pub struct Stop {
    pub flight: Flight,
    pub minute: u16,
    pub near: Station,
    pub far: Option<Station>,
    pub service: u8,
}

/// A data line: an arrival, a departure, or both, which make a turnaround. A turnaround's period
/// and weekdays are those of its arrival, and its departure is so many nights later.
#[derive(Clone, Copy, Debug, PartialEq, Eq)]
pub struct Line {
    pub code: Code,
    pub arrival: Option<Stop>,
    pub departure: Option<Stop>,
    pub nights: u8,
    pub period: Period,
    pub seats: u16,
    pub craft: Craft,
}

/// What stands in a message: a line, a line to be changed with the line that asks for the change,
/// or a question about a flight.
#[derive(Clone, Copy, Debug, PartialEq, Eq)]
pub enum Item {
    /// A line that stands alone.
    One(Line),
    /// The line that is to be changed, and the line that asks for the change.
    Pair(Line, Line),
    /// The flight that is asked about.
    Query(Flight),
}
