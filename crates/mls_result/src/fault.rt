//! Why a fold has no result.

use mls_ckpt::CkptWhy;

/// Why a fold has no result.
#[derive(Clone, Copy, Debug, PartialEq, Eq)]
pub enum FoldFault {
    /// A call of this rank's keeper failed.
    KeeperFault { rank: u32 },
    /// This rank's keeper gave nothing, or bytes that are no checkpoint. `at` is the first place that is wrong.
    CheckpointBad { rank: u32, at: u64, why: CkptWhy },
    /// The sink failed.
    WriteFault,
    /// Memory ran out.
    Memory,
}

impl From<mls_base::faults::NoMemory> for FoldFault {
    ghost use Rattle.std.specs.Prelude.{◌≡◌};
    ghost use Rattle.mls_result.specs.declared.fault.FoldFault.TheVariants.{Memory};

    ghost from_gives = { λ _ fault. fault ≡ Memory };

    fn from(_want: mls_base::faults::NoMemory) -> FoldFault {
        FoldFault::Memory
    }
}
