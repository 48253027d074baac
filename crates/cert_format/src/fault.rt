//! Why a certificate could not be read.

ghost use Rattle.std.specs.Prelude.{◌≡◌};
ghost use Rattle.cert_format.specs.declared.fault.CertFault.TheVariants.{Memory as no_memory};

use slot_text::Memory;
use std::alloc::{AllocError, AllocFailed};

/// Why a text is no certificate, or could not be kept.
#[derive(Clone, Copy, Debug, PartialEq, Eq)]
pub enum CertFault {
    /// The first line, counted from 1, that is not in the form at its place.
    BadLine { line: u32 },
    /// Memory ran out.
    Memory,
}

impl From<AllocError> for CertFault {
    ghost from_gives = { λ _ e. e ≡ no_memory };

    fn from(_error: AllocError) -> CertFault {
        CertFault::Memory
    }
}

impl<T: Drop> From<AllocFailed<T>> for CertFault {
    ghost from_gives = { λ _ e. e ≡ no_memory };

    fn from(_error: AllocFailed<T>) -> CertFault {
        CertFault::Memory
    }
}

impl From<Memory> for CertFault {
    ghost from_gives = { λ _ e. e ≡ no_memory };

    fn from(_error: Memory) -> CertFault {
        CertFault::Memory
    }
}
