//! Why a journal could not be opened.

ghost use Rattle.std.specs.Prelude.{◌≡◌};
ghost use Rattle.amend_journal.specs.declared.fault.OpenFault.TheVariants.{DiskFault as OfDisk};
ghost use Rattle.amend_journal.specs.declared.fault.OpenFault.TheVariants.{Memory as NoMemory};

use desk_disk::DiskFault;
use slot_text::Memory;
use std::alloc::AllocFailed;

/// Why a journal could not be opened.
#[derive(Clone, Copy, Debug, PartialEq, Eq)]
pub enum OpenFault {
    /// The file has more than 17 bytes, and does not begin with the header.
    NotJournal,
    /// The first slot with gate 1, before which every slot has gate 1, that is not whole: the next
    /// gate lies past the end, or its bytes spell no pair of this season, or there are 100,000
    /// before it. Slots count from 0.
    BadSlot { number: u32 },
    /// A call of the disk failed; the count of its faults has risen.
    DiskFault,
    /// Memory ran out.
    Memory,
}

impl From<DiskFault> for OpenFault {
    ghost from_gives = { λ _ e. e ≡ OfDisk };

    fn from(_fault: DiskFault) -> OpenFault {
        OpenFault::DiskFault
    }
}

impl From<Memory> for OpenFault {
    ghost from_gives = { λ _ e. e ≡ NoMemory };

    fn from(_error: Memory) -> OpenFault {
        OpenFault::Memory
    }
}

impl<T: Drop> From<AllocFailed<T>> for OpenFault {
    ghost from_gives = { λ _ e. e ≡ NoMemory };

    fn from(_error: AllocFailed<T>) -> OpenFault {
        OpenFault::Memory
    }
}
