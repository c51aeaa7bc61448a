//! The size of a tape or of a lane.

/// A number of bytes and a number of events.
#[derive(Clone, Copy, Debug)]
pub struct Size {
    pub bytes: u64,
    pub events: u64,
}
