//! Why bytes are refused.

use mls_base::faults::NoMemory;
use std::alloc::AllocError;

/// What is wrong with a list of bytes that is no checkpoint.
#[derive(Clone, Copy, Debug, PartialEq, Eq)]
pub enum CkptWhy {
    /// There are no bytes.
    Absent,
    /// The first four bytes are others.
    Magic,
    /// The version isn't one that is read for the study.
    Version,
    /// A number of the study or the rank is another.
    Shape,
    /// Too few bytes are left for the next number.
    Short,
    /// A number breaks a rule.
    Range,
    /// Bytes stand behind the end.
    Trailing,
}

/// Why the next number can't be taken. `at` is the place of its first byte.
#[derive(Clone, Copy, Debug, PartialEq, Eq)]
pub enum TakeFault {
    /// Too few bytes are left.
    Short { at: u64 },
    /// The number is greater than it may be.
    Range { at: u64 },
    /// Bytes are left at the end.
    Trailing { at: u64 },
}

/// Why bytes give no state.
#[derive(Clone, Copy, Debug, PartialEq, Eq)]
pub enum RecoverFault {
    /// They are no checkpoint. `at` is the first place that is wrong.
    Bad { at: u64, why: CkptWhy },
    /// Memory ran out.
    Memory,
}

impl From<TakeFault> for RecoverFault {
    ghost use Rattle.std.specs.Prelude.{◌≡◌};
    ghost use Rattle.mls_ckpt.specs.Faults.{bad_of};

    ghost from_gives = { λ fault made. made ≡ bad_of fault };

    fn from(fault: TakeFault) -> RecoverFault {
        match fault {
            TakeFault::Short { at } => RecoverFault::Bad {
                at,
                why: CkptWhy::Short,
            },
            TakeFault::Range { at } => RecoverFault::Bad {
                at,
                why: CkptWhy::Range,
            },
            TakeFault::Trailing { at } => RecoverFault::Bad {
                at,
                why: CkptWhy::Trailing,
            },
        }
    }
}

impl From<NoMemory> for RecoverFault {
    ghost use Rattle.std.specs.Prelude.{◌≡◌};
    ghost use Rattle.mls_ckpt.specs.declared.faults.RecoverFault.TheVariants.{Memory};

    ghost from_gives = { λ _ fault. fault ≡ Memory };

    fn from(_error: NoMemory) -> RecoverFault {
        RecoverFault::Memory
    }
}

impl From<AllocError> for RecoverFault {
    ghost use Rattle.std.specs.Prelude.{◌≡◌};
    ghost use Rattle.mls_ckpt.specs.declared.faults.RecoverFault.TheVariants.{Memory};

    ghost from_gives = { λ _ fault. fault ≡ Memory };

    fn from(_error: AllocError) -> RecoverFault {
        RecoverFault::Memory
    }
}
