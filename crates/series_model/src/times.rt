//! The times of an alternative.

/// An alternative of a unit: no slots, or one time for each of its movements, in minutes from the
/// beginning of a date of the line.
#[derive(Clone, Copy, Debug, PartialEq, Eq)]
pub enum Times {
    /// No slots.
    Refused,
    /// An arrival is below 1,440; a departure is on a later date from 1,440 on. A movement that the
    /// line does not have has 0.
    At { arrival: u32, departure: u32 },
}
