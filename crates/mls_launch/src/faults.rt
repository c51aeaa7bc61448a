//! Why a watch text was not written.

use mls_base::faults::{Failed, NoMemory};

/// Why a watch text was not written.
#[derive(Clone, Copy, Debug, PartialEq, Eq)]
pub enum OutFault {
    /// A write failed; a front of the text went out.
    WriteFault,
    /// Memory ran out; nothing went out.
    Memory,
}

impl From<Failed> for OutFault {
    ghost use Rattle.std.specs.Prelude.{◌≡◌};
    ghost use Rattle.mls_launch.specs.declared.faults.OutFault.TheVariants.{WriteFault};

    ghost from_gives = { λ _ fault. fault ≡ WriteFault };

    fn from(_error: Failed) -> OutFault {
        OutFault::WriteFault
    }
}

impl From<NoMemory> for OutFault {
    ghost use Rattle.std.specs.Prelude.{◌≡◌};
    ghost use Rattle.mls_launch.specs.declared.faults.OutFault.TheVariants.{Memory};

    ghost from_gives = { λ _ fault. fault ≡ Memory };

    fn from(_error: NoMemory) -> OutFault {
        OutFault::Memory
    }
}
