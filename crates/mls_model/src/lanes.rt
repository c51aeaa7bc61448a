//! What a lane is, how it ended, and why bytes are refused as a frame, a tape or a schedule.

/// The two kinds of lane. Pieces count on client lanes alone, saves and crashes on control lanes alone.
#[derive(Clone, Copy, Debug, PartialEq, Eq)]
pub enum LaneKind {
    Client,
    Control,
}

/// How a lane's bytes end, with the offset of the first byte that is left after its whole frames.
#[derive(Clone, Copy, Debug, PartialEq, Eq)]
pub enum LaneEnd {
    /// Nothing is left.
    Clean,
    /// What is left is the front of a frame.
    Cut { at: u64 },
    /// What is left has a kind byte that no frame has.
    BadKind { at: u64 },
    /// What is left has a length that no frame has.
    BadLength { at: u64 },
    /// The connection failed.
    Fault { at: u64 },
    /// The lane gave as many bytes as one may.
    Full { at: u64 },
}

/// What the result text says of one lane.
#[derive(Clone, Copy, Debug, PartialEq, Eq)]
pub struct LaneLine {
    pub lane: u32,
    pub rank: u32,
    pub kind: LaneKind,
    pub events: u32,
    pub end: LaneEnd,
}

/// Why bytes are no frame and no front of one.
#[derive(Clone, Copy, Debug, PartialEq, Eq)]
pub enum FrameFault {
    BadKind,
    BadLength,
}

/// Why bytes are no tape.
#[derive(Clone, Copy, Debug, PartialEq, Eq)]
pub enum TapeWhy {
    Cut,
    Magic,
    Version,
    Samples,
    TooManyLanes,
    LaneKind,
    LaneRank,
    Trailing,
    TooManyEvents,
}

/// Why a line of a schedule is refused.
#[derive(Clone, Copy, Debug, PartialEq, Eq)]
pub enum SchedWhy {
    Form,
    Rank,
    Lane,
    Count,
}
