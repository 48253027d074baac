//! Reports of what was operated.

use scr_reader::Flight;
use season_days::{Kind, Period};
use std::marker::Model;

/// A report: on each date of the period the arrival, or the departure, of the flight took place.
/// The departure of a turnaround is reported for the dates of its arrival. The kind of a report
/// that was read is never `Tot`.
#[derive(Clone, Copy, Debug, PartialEq, Eq)]
pub struct Operated {
    pub kind: Kind,
    pub flight: Flight,
    pub period: Period,
}

/// Reports in the order of their lines.
#[derive(Drop)]
pub struct OperatedList {
    items: Vec<Operated>,
}

impl Model for OperatedList {
    ghost use Rattle.std.specs.Prelude.{List};
    ghost use Rattle.usage_watch.specs.declared.operated.Operated.{Operated as OperatedValue};

    ghost Value = { List OperatedValue };

    ghost view = { λ l. l.items.items };
}

impl OperatedList {
    ghost use Rattle.std.specs.Prelude.{◌≡◌};

    /// A list of these reports. It takes no memory.
    pub fn new(items: Vec<Operated>) -> OperatedList
        ensures { result ≡ items.items }
    {
        OperatedList { items }
    }

    /// The reports, in their order.
    pub fn items(&self) -> &[Operated]
        ensures { result.now ≡ self.now }
    {
        self.items.as_slice()
    }
}
