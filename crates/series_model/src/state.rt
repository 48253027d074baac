//! A unit between two stages.

use crate::times::Times;
use crate::unit::Unit;

/// A unit, and the times that the stages so far gave it: none before a stage has allotted it. A
/// refusal gives no slots.
#[derive(Clone, Copy, Debug, PartialEq, Eq)]
pub struct UnitState {
    /// What asks for slots.
    pub unit: Unit,
    /// What it was given last.
    pub given: Option<Times>,
}
