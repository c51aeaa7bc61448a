//! Why bytes are no tape, or no schedule of one.

ghost use Rattle.std.specs.Prelude.{◌≡◌};
ghost use Rattle.mls_tape.specs.declared.faults.TapeFault.TheVariants.{Bad, Memory};

use mls_base::faults::NoMemory;
use mls_model::lanes::{SchedWhy, TapeWhy};
use std::alloc::{AllocError, AllocFailed};

/// Why a tape could not be read.
#[derive(Debug, Drop)]
pub enum TapeFault {
    /// The first fault from left to right, with the offset where it stands.
    Bad { at: u64, why: TapeWhy },
    Memory,
}

/// A fault of the bytes at an offset.
pub(crate) fn bad(at: u64, why: TapeWhy) -> TapeFault
    ensures { result ≡ Bad at why }
{
    TapeFault::Bad { at, why }
}

impl From<AllocError> for TapeFault {
    ghost from_gives = { λ _ e. e ≡ Memory };

    fn from(_e: AllocError) -> TapeFault {
        TapeFault::Memory
    }
}

impl<T: Drop> From<AllocFailed<T>> for TapeFault {
    ghost from_gives = { λ _ e. e ≡ Memory };

    fn from(_e: AllocFailed<T>) -> TapeFault {
        TapeFault::Memory
    }
}

impl From<NoMemory> for TapeFault {
    ghost from_gives = { λ _ e. e ≡ Memory };

    fn from(_e: NoMemory) -> TapeFault {
        TapeFault::Memory
    }
}

/// Why a schedule could not be read.
#[derive(Debug, Drop)]
pub enum SchedFault {
    /// The first line that is refused, numbered from 1.
    Bad { line: u32, why: SchedWhy },
    Memory,
}

impl From<AllocError> for SchedFault {
    ghost use Rattle.std.specs.Prelude.{◌≡◌};
    ghost use Rattle.mls_tape.specs.declared.faults.SchedFault.TheVariants as sched;

    ghost from_gives = { λ _ e. e ≡ sched.Memory };

    fn from(_e: AllocError) -> SchedFault {
        SchedFault::Memory
    }
}

impl From<NoMemory> for SchedFault {
    ghost use Rattle.std.specs.Prelude.{◌≡◌};
    ghost use Rattle.mls_tape.specs.declared.faults.SchedFault.TheVariants as sched;

    ghost from_gives = { λ _ e. e ≡ sched.Memory };

    fn from(_e: NoMemory) -> SchedFault {
        SchedFault::Memory
    }
}
