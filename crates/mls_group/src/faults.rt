//! Why a group's samples weren't sent.

ghost use Rattle.std.specs.Prelude.{◌≡◌};

use mls_base::faults::{Failed, NoMemory};
use std::alloc::AllocError;

/// Why a connection of a group ended before all was sent.
#[derive(Clone, Copy, Debug, PartialEq, Eq)]
pub enum PairFault {
    /// A read or write of the link failed.
    LinkFault,
    /// The server refused the connection.
    Refused { reason: u8, value: u32 },
    /// What the server sent first is no answer.
    Peer,
    /// Memory ran out.
    Memory,
}

/// Why a group didn't send all.
#[derive(Clone, Copy, Debug, PartialEq, Eq)]
pub enum GroupFault {
    /// No connection could be made.
    DoorFault,
    /// A read or write of a link failed.
    LinkFault,
    /// The server refused a connection.
    Refused { reason: u8, value: u32 },
    /// What the server sent first on a connection is no answer.
    Peer,
    /// Memory ran out.
    Memory,
}

/// Why a step of a connection wasn't done.
#[derive(Clone, Copy, Debug, PartialEq, Eq)]
pub enum Stop {
    /// A read or write of the link failed.
    Link,
    /// Memory ran out.
    Memory,
}

impl From<Failed> for Stop {
    ghost use Rattle.std.specs.Prelude.{◌≡◌};
    ghost use Rattle.mls_group.specs.declared.faults.Stop.TheVariants.{Link};

    ghost from_gives = { λ _ stop. stop ≡ Link };

    fn from(_failed: Failed) -> Stop {
        Stop::Link
    }
}

impl From<NoMemory> for Stop {
    ghost use Rattle.std.specs.Prelude.{◌≡◌};
    ghost use Rattle.mls_group.specs.declared.faults.Stop.TheVariants.{Memory};

    ghost from_gives = { λ _ stop. stop ≡ Memory };

    fn from(_none: NoMemory) -> Stop {
        Stop::Memory
    }
}

impl From<AllocError> for Stop {
    ghost use Rattle.std.specs.Prelude.{◌≡◌};
    ghost use Rattle.mls_group.specs.declared.faults.Stop.TheVariants.{Memory};

    ghost from_gives = { λ _ stop. stop ≡ Memory };

    fn from(_error: AllocError) -> Stop {
        Stop::Memory
    }
}

impl From<Stop> for PairFault {
    ghost use Rattle.std.specs.Prelude.{◌≡◌};
    ghost use Rattle.mls_group.specs.Faults.{stopped};

    ghost from_gives = { λ stop fault. fault ≡ stopped stop };

    fn from(stop: Stop) -> PairFault {
        match stop {
            Stop::Link => PairFault::LinkFault,
            Stop::Memory => PairFault::Memory,
        }
    }
}

impl From<PairFault> for GroupFault {
    ghost use Rattle.std.specs.Prelude.{◌≡◌};
    ghost use Rattle.mls_group.specs.Faults.{ended};

    ghost from_gives = { λ pair fault. fault ≡ ended pair };

    fn from(fault: PairFault) -> GroupFault {
        match fault {
            PairFault::LinkFault => GroupFault::LinkFault,
            PairFault::Refused { reason, value } => GroupFault::Refused { reason, value },
            PairFault::Peer => GroupFault::Peer,
            PairFault::Memory => GroupFault::Memory,
        }
    }
}

impl From<NoMemory> for GroupFault {
    ghost use Rattle.std.specs.Prelude.{◌≡◌};
    ghost use Rattle.mls_group.specs.declared.faults.GroupFault.TheVariants.{Memory};

    ghost from_gives = { λ _ fault. fault ≡ Memory };

    fn from(_none: NoMemory) -> GroupFault {
        GroupFault::Memory
    }
}
