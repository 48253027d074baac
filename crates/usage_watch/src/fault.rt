//! Why a text is none of reports.

ghost use Rattle.std.specs.Prelude.{◌≡◌, Some};
ghost use Rattle.usage_watch.specs.Texts.{operated_fault_text};
ghost use Rattle.usage_watch.specs.declared.fault.OperatedFault.TheVariants.{Memory};

use std::alloc::{AllocError, AllocFailed};
use std::error::Error;
use std::fmt;

/// Why a text of reports is not read.
#[derive(Clone, Copy, Debug, PartialEq, Eq)]
pub enum OperatedFault {
    /// The first line, counted from 1, that is not empty and is no report: it has another form, a
    /// date that the season lacks, a period without dates, a blank at an end, or more than 200
    /// bytes.
    BadLine { line: u32 },
    /// Memory ran out.
    Memory,
}

impl fmt::Display for OperatedFault {
    ghost output = { λ fault. Some (operated_fault_text fault) };

    fn fmt<W: fmt::Write>(&self, f: &mut fmt::Formatter<W>) -> fmt::Result {
        match *self {
            OperatedFault::BadLine { line } => write!(f, "line {line}: no report"),
            OperatedFault::Memory => f.write_str("out of memory"),
        }
    }
}

impl Error for OperatedFault {}

impl From<AllocError> for OperatedFault {
    ghost from_gives = { λ _ e. e ≡ Memory };

    fn from(_error: AllocError) -> OperatedFault {
        OperatedFault::Memory
    }
}

impl<T: Drop> From<AllocFailed<T>> for OperatedFault {
    ghost from_gives = { λ _ e. e ≡ Memory };

    fn from(_error: AllocFailed<T>) -> OperatedFault {
        OperatedFault::Memory
    }
}
