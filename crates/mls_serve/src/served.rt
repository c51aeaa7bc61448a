//! What a served connection ends with.

use mls_book::BookFault;
use mls_model::lanes::{LaneEnd, LaneLine};

/// What a served connection was.
#[derive(Clone, Copy, Debug, PartialEq, Eq)]
pub enum Served {
    /// A lane, with its line of the result text.
    Lane(LaneLine),
    /// Its first frame was refused.
    Refused { reason: u8, value: u32 },
    /// No whole frame came, or the answer couldn't be written.
    Early(LaneEnd),
}

/// Why a connection isn't served any more: a rank's book, or want of memory. Before a welcome the rank is 0 and the
/// fault is `Memory`.
#[derive(Clone, Copy, Debug, PartialEq, Eq)]
pub struct LaneFault {
    pub rank: u32,
    pub fault: BookFault,
}
