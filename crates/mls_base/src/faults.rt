//! The plain refusals, and how failures are counted.

ghost use Rattle.std.specs.Prelude.{◌≡◌, Ok, Err, is_err, IfOk, OnOk, OnErr};
ghost use Rattle.mls_base.specs.Told.{raised, Rose};

use std::alloc::{AllocError, AllocFailed};

/// A call of the outside failed.
#[derive(Clone, Copy, Debug, PartialEq, Eq)]
pub struct Failed;

/// Memory ran out.
#[derive(Clone, Copy, Debug, PartialEq, Eq)]
pub struct NoMemory;

/// Why a load gave no bytes.
#[derive(Clone, Copy, Debug, PartialEq, Eq)]
pub enum LoadFault {
    /// The call failed.
    Failed,
    /// The name is held with more bytes than may be loaded.
    TooLong,
    /// Memory ran out.
    Memory,
}

/// Why a save or a get had no effect.
#[derive(Clone, Copy, Debug, PartialEq, Eq)]
pub enum StoreFault {
    /// The call failed.
    Failed,
    /// Memory ran out.
    Memory,
}

/// Counts one more fault, and gives it as the answer. The count stays at its last value.
pub fn fail<T: Drop, E>(faults: &mut u64, fault: E) -> Result<T, E>
    ensures answer { result ≡ Err fault }
    ensures count { faults.new ≡ raised faults.old }
{
    *faults = faults.saturating_add(1);
    Err(fault)
}

/// The answer of a call, where a failure counts as one more fault.
pub fn counted<T: Drop, E: Drop>(faults: &mut u64, answer: Result<T, E>) -> Result<T, Failed>
    ensures fails { is_err result ≡ is_err answer }
    ensures value { IfOk result (λ value. answer ≡ Ok value) }
    ensures faultless { OnOk result (faults.new ≡ faults.old) }
    ensures rose { OnErr result (Rose faults.old faults.new) }
{
    match answer {
        Ok(value) => Ok(value),
        Err(_) => fail(faults, Failed),
    }
}

impl From<AllocError> for NoMemory {
    fn from(_error: AllocError) -> NoMemory {
        NoMemory
    }
}

impl<T: Drop> From<AllocFailed<T>> for NoMemory {
    fn from(_error: AllocFailed<T>) -> NoMemory {
        NoMemory
    }
}

impl From<AllocError> for LoadFault {
    ghost use Rattle.std.specs.Prelude.{◌≡◌};
    ghost use Rattle.mls_base.specs.declared.faults.LoadFault.TheVariants.{Memory};

    ghost from_gives = { λ _ fault. fault ≡ Memory };

    fn from(_error: AllocError) -> LoadFault {
        LoadFault::Memory
    }
}

impl From<AllocError> for StoreFault {
    ghost use Rattle.std.specs.Prelude.{◌≡◌};
    ghost use Rattle.mls_base.specs.declared.faults.StoreFault.TheVariants.{Memory};

    ghost from_gives = { λ _ fault. fault ≡ Memory };

    fn from(_error: AllocError) -> StoreFault {
        StoreFault::Memory
    }
}
