//! The bytes of a lane in its tape.

ghost use Rattle.std.specs.Prelude.{◌+◌, ◌<◌, ◌^◌, length};

use mls_model::lanes::LaneKind;

/// The bytes of a lane, and where they begin in the tape.
#[derive(Drop)]
pub struct LaneStretch<'a> {
    pub rank: u32,
    pub kind: LaneKind,
    pub at: u64,
    pub bytes: &'a [u8],
    ghost in_tape: { at + length bytes.now < 2 ^ 32 },
}
