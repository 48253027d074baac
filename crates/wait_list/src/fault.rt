//! Why there is no waiting list.

ghost use Rattle.std.specs.Prelude.{◌≡◌};
ghost use Rattle.wait_list.specs.declared.fault.WaitFault.TheVariants.{Memory as NoMemory};

use slot_text::Memory;
use std::alloc::{AllocError, AllocFailed};

/// Why asks of a history are no waiting list.
#[derive(Clone, Copy, Debug, PartialEq, Eq)]
pub enum WaitFault {
    /// So many lines wait, more than 4,096.
    TooMany { waiting: u32 },
    /// Memory ran out.
    Memory,
}

impl From<Memory> for WaitFault {
    ghost from_gives = { λ _ e. e ≡ NoMemory };

    fn from(_error: Memory) -> WaitFault {
        WaitFault::Memory
    }
}

impl From<AllocError> for WaitFault {
    ghost from_gives = { λ _ e. e ≡ NoMemory };

    fn from(_error: AllocError) -> WaitFault {
        WaitFault::Memory
    }
}

impl<T: Drop> From<AllocFailed<T>> for WaitFault {
    ghost from_gives = { λ _ e. e ≡ NoMemory };

    fn from(_error: AllocFailed<T>) -> WaitFault {
        WaitFault::Memory
    }
}
