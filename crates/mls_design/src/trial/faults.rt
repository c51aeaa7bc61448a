//! Why no tape is made.

ghost use Rattle.std.specs.Prelude.{◌≡◌};
ghost use Rattle.mls_design.specs.declared.trial.faults.MakeFault.TheVariants.{Memory};

use mls_base::faults::NoMemory;
use std::alloc::AllocError;

/// Why no tape and schedule are made.
#[derive(Debug, Drop)]
pub enum MakeFault {
    /// The tape would pass 1,073,741,824 bytes or 16,777,216 events.
    TooLarge,
    Memory,
}

impl From<AllocError> for MakeFault {
    ghost from_gives = { λ _ e. e ≡ Memory };

    fn from(_e: AllocError) -> MakeFault {
        MakeFault::Memory
    }
}

impl From<NoMemory> for MakeFault {
    ghost from_gives = { λ _ e. e ≡ Memory };

    fn from(_e: NoMemory) -> MakeFault {
        MakeFault::Memory
    }
}
