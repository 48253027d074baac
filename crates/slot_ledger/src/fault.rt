//! Why an ask was not entered.
ghost use Rattle.std.specs.Prelude.{◌≡◌};
ghost use Rattle.slot_ledger.specs.declared.fault.EnterFault.TheVariants.{Memory as NoMemory};

use slot_text::Memory;
use std::alloc::{AllocError, AllocFailed};

/// Why an ask was not entered. The history is as before.
#[derive(Clone, Copy, Debug, PartialEq, Eq)]
pub enum LedgerFault {
    /// The history holds so many entries, as many as it may.
    Full { length: u64 },
    Memory,
}

/// Why an ask was not entered, where something is kept beside the history.
#[derive(Clone, Copy, Debug, PartialEq, Eq)]
pub enum EnterFault {
    /// With those that were found before there are so many entries, as many as may be.
    Full { length: u64 },
    /// What is kept beside the history has failed, by this count of faults.
    Broken { faults: u64 },
    Memory,
}

impl From<Memory> for EnterFault {
    ghost from_gives = { λ _ e. e ≡ NoMemory };

    fn from(_error: Memory) -> EnterFault {
        EnterFault::Memory
    }
}

impl From<AllocError> for EnterFault {
    ghost from_gives = { λ _ e. e ≡ NoMemory };

    fn from(_error: AllocError) -> EnterFault {
        EnterFault::Memory
    }
}
