//! Why a run does not take place.

use slot_text::Memory;
use std::alloc::{AllocError, AllocFailed};
use std::error::Error;
use std::fmt;

/// Why the desk was not run.
#[derive(Clone, Copy, Debug, PartialEq, Eq)]
pub enum RunFault {
    /// There are more files or doors than there is room for, or a file or the disk is too long.
    NoRoom,
    /// Memory ran out.
    Memory,
}

impl fmt::Display for RunFault {
    fn fmt<W: fmt::Write>(&self, f: &mut fmt::Formatter<W>) -> fmt::Result {
        match *self {
            RunFault::NoRoom => f.write_str("what a run is given has no room"),
            RunFault::Memory => f.write_str("out of memory"),
        }
    }
}

impl Error for RunFault {}

impl From<Memory> for RunFault {
    fn from(_error: Memory) -> RunFault {
        RunFault::Memory
    }
}

impl From<AllocError> for RunFault {
    fn from(_error: AllocError) -> RunFault {
        RunFault::Memory
    }
}

impl<T: Drop> From<AllocFailed<T>> for RunFault {
    fn from(_error: AllocFailed<T>) -> RunFault {
        RunFault::Memory
    }
}
