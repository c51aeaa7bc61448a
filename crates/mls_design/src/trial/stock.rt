//! Lanes with events.

/// A lane's number with a number of events.
#[derive(Clone, Copy, Debug)]
pub struct Stock {
    pub lane: u32,
    pub events: u32,
}
