//! Why a text is no capacity file, and what each cause prints.

ghost use Rattle.std.specs.Prelude.{◌≡◌, Some};
ghost use Rattle.capacity_file.specs.Texts.{cap_word_text, cap_limit_text, cap_fault_text};
ghost use Rattle.capacity_file.specs.declared.fault.CapFault.TheVariants.{Memory};

use std::alloc::{AllocError, AllocFailed};
use std::error::Error;
use std::fmt;

/// A word that a capacity file must have, in the order in which a missing one is looked for.
#[derive(Clone, Copy, Debug, PartialEq, Eq)]
pub enum CapWord {
    /// The airport.
    Airport,
    /// The season.
    Season,
    /// The minutes between two times that may be offered.
    Step,
    /// The flexibility in minutes.
    Flex,
    /// The ground time in minutes.
    Ground,
    /// The price of a refused movement on one date.
    Refuse,
}

impl fmt::Display for CapWord {
    ghost output = { λ word. Some (cap_word_text word) };

    fn fmt<W: fmt::Write>(&self, f: &mut fmt::Formatter<W>) -> fmt::Result {
        f.write_str(match self {
            CapWord::Airport => "AIRPORT",
            CapWord::Season => "SEASON",
            CapWord::Step => "STEP",
            CapWord::Flex => "FLEX",
            CapWord::Ground => "GROUND",
            CapWord::Refuse => "REFUSE",
        })
    }
}

/// A limit of a declaration as a whole, in the order in which one that is passed is looked for.
#[derive(Clone, Copy, Debug, PartialEq, Eq)]
pub enum CapLimit {
    /// The flexibility in minutes, at most 120.
    Flex,
    /// The number of capacity lines, at most 64.
    Caps,
    /// The number of windows in the season, the night quota counted as one: at most 1,000,000.
    Windows,
}

impl fmt::Display for CapLimit {
    ghost output = { λ limit. Some (cap_limit_text limit) };

    fn fmt<W: fmt::Write>(&self, f: &mut fmt::Formatter<W>) -> fmt::Result {
        f.write_str(match self {
            CapLimit::Flex => "FLEX",
            CapLimit::Caps => "CAPS",
            CapLimit::Windows => "WINDOWS",
        })
    }
}

/// Why a text is no capacity file: the first cause, in the order of `BadLine` and `Twice` by their
/// lines, `Missing`, `BadLine` of a FLEX that is no multiple of the STEP, and `OverLimit`.
#[derive(Clone, Copy, Debug, PartialEq, Eq)]
pub enum CapFault {
    /// The line, counted from 1, has no known word, not its word's number of fields, a value that
    /// is not allowed, a blank at an end, or more than 200 bytes. Or it is the FLEX line, and the
    /// value is no multiple of the STEP.
    BadLine { line: u32 },
    /// No line begins with this word.
    Missing { name: CapWord },
    /// The line, counted from 1, begins with a word, other than CAP, with which an earlier line
    /// begins.
    Twice { line: u32 },
    /// The declaration passes a limit, by this number.
    OverLimit { name: CapLimit, number: u64 },
    /// Memory ran out.
    Memory,
}

impl fmt::Display for CapFault {
    ghost output = { λ fault. Some (cap_fault_text fault) };

    fn fmt<W: fmt::Write>(&self, f: &mut fmt::Formatter<W>) -> fmt::Result {
        match *self {
            CapFault::BadLine { line } => write!(f, "line {line}: no line of a capacity file"),
            CapFault::Missing { name } => write!(f, "no {name} line"),
            CapFault::Twice { line } => write!(f, "line {line}: a word that has a line already"),
            CapFault::OverLimit { name, number } => write!(f, "{name} {number} is over the limit"),
            CapFault::Memory => f.write_str("out of memory"),
        }
    }
}

impl Error for CapFault {}

impl From<AllocError> for CapFault {
    ghost from_gives = { λ _ e. e ≡ Memory };

    fn from(_error: AllocError) -> CapFault {
        CapFault::Memory
    }
}

impl<T: Drop> From<AllocFailed<T>> for CapFault {
    ghost from_gives = { λ _ e. e ≡ Memory };

    fn from(_error: AllocFailed<T>) -> CapFault {
        CapFault::Memory
    }
}
