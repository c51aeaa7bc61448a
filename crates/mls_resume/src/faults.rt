//! Why the states of other ranks can't be taken over.

use mls_base::faults::NoMemory;
use std::alloc::AllocError;

/// Why the states of old ranks aren't cut anew.
#[derive(Clone, Copy, Debug, PartialEq, Eq)]
pub enum RecutFault {
    /// The marks of rank `other` differ from those of rank 0, first at this plane and group. `first_has` says whether
    /// rank 0 has the mark.
    Differ {
        other: u32,
        plane: u32,
        group: u32,
        first_has: bool,
    },
    /// Memory ran out.
    Memory,
}

impl From<NoMemory> for RecutFault {
    ghost use Rattle.std.specs.Prelude.{◌≡◌};
    ghost use Rattle.mls_resume.specs.declared.faults.RecutFault.TheVariants.{Memory};

    ghost from_gives = { λ _ fault. fault ≡ Memory };

    fn from(_error: NoMemory) -> RecutFault {
        RecutFault::Memory
    }
}

impl From<AllocError> for RecutFault {
    ghost use Rattle.std.specs.Prelude.{◌≡◌};
    ghost use Rattle.mls_resume.specs.declared.faults.RecutFault.TheVariants.{Memory};

    ghost from_gives = { λ _ fault. fault ≡ Memory };

    fn from(_error: AllocError) -> RecutFault {
        RecutFault::Memory
    }
}
