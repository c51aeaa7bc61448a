//! Why an event isn't taken, and why a hub can't go on.

/// Why a rank's book didn't take an event.
#[derive(Clone, Copy, Debug, PartialEq, Eq)]
pub enum Refusal {
    /// The keeper's call failed.
    Keeper,
    /// Memory ran out.
    Memory,
}

/// Why a hub can't go on.
#[derive(Clone, Copy, Debug, PartialEq, Eq)]
pub enum Fault {
    /// A call of the rank's keeper failed.
    Keeper { rank: u32 },
    /// Memory ran out.
    Memory,
}
