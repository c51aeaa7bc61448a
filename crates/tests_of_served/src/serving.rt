//! A connection in memory that is served as lane 1, for one cell, one step, two groups and one parameter.

ghost use Rattle.std.specs.Prelude.{◌≤◌};

use mls_base::faults::NoMemory;
use mls_base::numbers::Numbers;
use mls_base::shape::Shape;
use mls_model::lanes::{LaneEnd, LaneKind, LaneLine};
use mls_serve::{LaneFault, MemPost, Served, serve_lane};
use mls_wire::MemLink;
use std::alloc::Global;

const NUMBERS: Numbers = Numbers {
    cells: 1,
    steps: 1,
    groups: 2,
    parameters: 1,
    ranks: 1,
    clients: 1,
    slots: 1,
    silence: 300,
    lives: 3,
    thresholds: 0,
    threshold: [0; 8],
    signed: false,
    fields: 1,
};

/// The first frame of group 0, life 1, from client 0 to rank 0.
pub(crate) const HELLO: &[u8] = &[0, 0, 0, 15, 6, 0, 1, 0, 0, 0, 0, 0, 0, 0, 1, 0, 0, 0, 0];

/// A welcome as lane 1.
pub(crate) const WELCOME: &[u8] = &[0, 0, 0, 5, 7, 0, 0, 0, 1];

/// A sign of group 0, life 1.
pub(crate) const BEAT: &[u8] = &[0, 0, 0, 9, 2, 0, 0, 0, 0, 0, 0, 0, 1];

/// What a lane's end offers.
pub(crate) const SAVE: &[u8] = &[0, 0, 0, 1, 4];

/// The piece of life 1 with the samples 7, 9 and 9 of one cell.
pub(crate) fn piece(group: u8, step: u8, client: u8, first: u8) -> [u8; 35] {
    [
        0, 0, 0, 31, 1, 0, 0, 0, 1, 0, 0, 0, group, 0, 0, 0, step, 0, client, 0, 3, 0, 0, 0, first,
        0, 0, 0, 1, 0, 7, 0, 9, 0, 9,
    ]
}

/// A connection that was served.
#[derive(Drop)]
pub(crate) struct Connection {
    pub answer: Result<Served, LaneFault>,
    pub link: MemLink,
    pub post: MemPost,
}

/// Serves a connection that gives these bytes, at most `cut` of them in a read. The calls of its link and the offers of
/// its post that have these numbers fail.
pub(crate) fn serve(
    alloc: Global,
    bytes: &[u8],
    cut: u32,
    link_fails: Vec<u64>,
    post_fails: Vec<u64>,
) -> Result<Connection, NoMemory>
    requires { 1 ≤ cut }
{
    let Some(shape) = Shape::of(&NUMBERS) else {
        return Err(NoMemory);
    };
    let bytes = Vec::from_slice(alloc, bytes)?;
    let mut link = MemLink::new(alloc, bytes, cut, 64, link_fails)?;
    let mut post = MemPost::new(alloc, 1, 2, post_fails);
    let answer = serve_lane(alloc, &shape, 1, &mut link, &mut post);
    Ok(Connection { answer, link, post })
}

/// The bytes of a lane after those of its first frame.
pub(crate) fn after_hello(alloc: Global, tail: &[u8]) -> Result<Vec<u8>, NoMemory> {
    let mut bytes = Vec::from_slice(alloc, HELLO)?;
    bytes.extend_from_slice(tail)?;
    Ok(bytes)
}

/// The line of lane 1.
pub(crate) fn lane(events: u32, end: LaneEnd) -> Result<Served, LaneFault> {
    Ok(Served::Lane(LaneLine {
        lane: 1,
        rank: 0,
        kind: LaneKind::Client,
        events,
        end,
    }))
}

impl Connection {
    /// Whether this was answered and written, and the frames of these bytes were offered.
    pub(crate) fn is(
        &self,
        answer: Result<Served, LaneFault>,
        written: &[u8],
        offered: &[u8],
    ) -> bool {
        self.answer == answer && self.link.written() == written && self.post.spelled() == offered
    }

    /// Whether the lane has this line, and the frames of these bytes and a Save were offered.
    pub(crate) fn is_lane(&self, events: u32, end: LaneEnd, offered: &[u8]) -> bool {
        self.answer == lane(events, end)
            && self.link.written() == WELCOME
            && self.post.spelled().starts_with(offered)
            && self.post.spelled().get(offered.len()..) == Some(SAVE)
    }
}
