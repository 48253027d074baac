//! Why messages are no submission.

ghost use Rattle.std.specs.Prelude.{◌≡◌};
ghost use Rattle.series_model.specs.declared.fault.ModelFault.TheVariants.{Memory as NoMemory};

use slot_text::Memory;
use std::alloc::{AllocError, AllocFailed};

/// Why messages are no submission of a season.
#[derive(Clone, Copy, Debug, PartialEq, Eq)]
pub enum ModelFault {
    /// The season on this line is not the declared one.
    OtherSeason { line: u32 },
    /// The airport on this line is not the declared one.
    OtherAirport { line: u32 },
    /// What stands on this line makes no unit: a line by itself with another code than F, B or N,
    /// or a question.
    NotInitial { line: u32 },
    /// There are so many units, more than 4,096.
    TooMany { units: u32 },
    /// Memory ran out.
    Memory,
}

impl From<Memory> for ModelFault {
    ghost from_gives = { λ _ e. e ≡ NoMemory };

    fn from(_error: Memory) -> ModelFault {
        ModelFault::Memory
    }
}

impl From<AllocError> for ModelFault {
    ghost from_gives = { λ _ e. e ≡ NoMemory };

    fn from(_error: AllocError) -> ModelFault {
        ModelFault::Memory
    }
}

impl<T: Drop> From<AllocFailed<T>> for ModelFault {
    ghost from_gives = { λ _ e. e ≡ NoMemory };

    fn from(_error: AllocFailed<T>) -> ModelFault {
        ModelFault::Memory
    }
}
