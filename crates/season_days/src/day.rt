//! Days of a season, periods and their parts, and why they may not be there.

ghost use Rattle.std.specs.Prelude.{◌≡◌, Some};
ghost use Rattle.season_days.specs.Texts.{day_fault_text};
ghost use Rattle.season_days.specs.declared.day.DayFault.TheVariants.{Memory};

use std::alloc::{AllocError, AllocFailed};
use std::error::Error;
use std::fmt;

/// A day of a season, counted from its first date, which is day 0.
#[derive(Clone, Copy, Debug, PartialEq, Eq)]
pub struct Day(pub u32);

/// The days from first to last, both included, on some weekdays: bit 0 of `days` is Monday and bit
/// 6 Sunday.
#[derive(Clone, Copy, Debug, PartialEq, Eq)]
pub struct Period {
    pub first: Day,
    pub last: Day,
    pub days: u8,
}

/// What is left of a period where the dates of another are taken out: its days before the other's
/// first, those from the other's first to its last on the weekdays that the other lacks, and those
/// after the other's last. None: that part has no date. The first and the last day of a part need
/// not be dates of it.
#[derive(Clone, Copy, Debug, PartialEq, Eq)]
pub struct Cut {
    pub before: Option<Period>,
    pub between: Option<Period>,
    pub after: Option<Period>,
}

/// Why a day or the dates of a period are not there.
#[derive(Clone, Copy, Debug, PartialEq, Eq)]
pub enum DayFault {
    /// The year has no such month or day of the month.
    NoSuchDate,
    /// The date lies before the season's first or after its last.
    OutsideSeason,
    /// The period's first day is after its last.
    Reversed,
    /// No day of the period has one of its weekdays.
    NoDates,
    /// Memory ran out.
    Memory,
}

impl fmt::Display for DayFault {
    ghost output = { λ fault. Some (day_fault_text fault) };

    fn fmt<W: fmt::Write>(&self, f: &mut fmt::Formatter<W>) -> fmt::Result {
        match self {
            DayFault::NoSuchDate => f.write_str("no such date"),
            DayFault::OutsideSeason => f.write_str("a date outside the season"),
            DayFault::Reversed => f.write_str("a period that ends before it begins"),
            DayFault::NoDates => f.write_str("a period without dates"),
            DayFault::Memory => f.write_str("out of memory"),
        }
    }
}

impl Error for DayFault {}

impl From<AllocError> for DayFault {
    ghost from_gives = { λ _ e. e ≡ Memory };

    fn from(_error: AllocError) -> DayFault {
        DayFault::Memory
    }
}

impl<T: Drop> From<AllocFailed<T>> for DayFault {
    ghost from_gives = { λ _ e. e ≡ Memory };

    fn from(_error: AllocFailed<T>) -> DayFault {
        DayFault::Memory
    }
}
