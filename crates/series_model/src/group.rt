//! Groups of units.

/// What a unit asks for, in the order of initial allocation of the Worldwide Airport Slot
/// Guidelines.
#[derive(Clone, Copy, Debug, PartialEq, Eq)]
pub enum Group {
    /// A historic series at its own times.
    F,
    /// A historic series that asks for other times, and takes any between the two.
    R,
    /// A historic series that asks for other times, and takes either those or its own.
    L,
    /// A new entrant.
    B,
    /// Any other new request.
    N,
}
