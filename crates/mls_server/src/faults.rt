//! Why a server ends early.

use mls_serve::LaneFault;

/// Why a server ends early.
#[derive(Clone, Copy, Debug, PartialEq, Eq)]
pub enum ServeFault {
    /// An accept failed.
    DoorFault,
    /// A rank's book refused a lane's event.
    Rank(LaneFault),
    /// Memory ran out.
    Memory,
}
