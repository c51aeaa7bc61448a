//! What the front of a list of bytes is.

ghost use Rattle.std.specs.Prelude.{◌≡◌, ℕ, ◌+◌, ◌*◌, ◌<◌, ◌≤◌, ◌||◌, length, nat_lt};
ghost use Rattle.std.specs.Int.{w16, w32};
ghost use Rattle.mls_model.specs.Frames.{longest_body, whole, is_no_length, fixed_length, fixed_frame, fixed_sight, piece_sight, sized_sight, sight};
ghost use Rattle.mls_frame.specs.Views.{frame_of, sight_of, IsWithin};

use crate::numbers::{number_16, number_32};
use crate::piece_view::PieceView;
use mls_model::lanes::FrameFault;

/// The longest body of a frame, in bytes.
const LONGEST_BODY: u32 = 67_108_864;

/// A frame as it lies in the bytes that spell it.
#[derive(Drop)]
pub enum FrameView<'a> {
    Piece(PieceView<'a>),
    /// A sign that the group runs.
    Beat {
        group: u32,
        life: u32,
    },
    /// The group's end.
    Bye {
        group: u32,
        life: u32,
    },
    /// The rank is to save its state.
    Save,
    /// The rank loses its state.
    Crash,
    /// The first frame of a connection.
    Hello {
        version: u16,
        group: u32,
        life: u32,
        client: u16,
        rank: u16,
    },
    /// The answer to a Hello that is taken, with the number of the connection's lane.
    Welcome {
        lane: u32,
    },
    /// The answer to a Hello that is refused.
    Refuse {
        reason: u8,
        value: u32,
    },
}

/// What the front of a list of bytes is.
#[derive(Drop)]
pub enum Seen<'a> {
    /// A frame, spelled by the first `used` bytes.
    Whole { frame: FrameView<'a>, used: u32 },
    /// Too little to tell.
    More,
    /// Neither a frame nor the front of one.
    Bad(FrameFault),
}

impl<'a> FrameView<'a> {
    /// The same frame, lent once more from the same bytes.
    pub fn lent(&self) -> FrameView<'_>
        ensures { frame_of result ≡ frame_of self.now }
    {
        match self {
            FrameView::Piece(piece) => FrameView::Piece(piece.lent()),
            FrameView::Beat { group, life } => FrameView::Beat {
                group: *group,
                life: *life,
            },
            FrameView::Bye { group, life } => FrameView::Bye {
                group: *group,
                life: *life,
            },
            FrameView::Save => FrameView::Save,
            FrameView::Crash => FrameView::Crash,
            FrameView::Hello {
                version,
                group,
                life,
                client,
                rank,
            } => FrameView::Hello {
                version: *version,
                group: *group,
                life: *life,
                client: *client,
                rank: *rank,
            },
            FrameView::Welcome { lane } => FrameView::Welcome { lane: *lane },
            FrameView::Refuse { reason, value } => FrameView::Refuse {
                reason: *reason,
                value: *value,
            },
        }
    }
}

fn is_no_length(size: u32) -> bool
    ensures { result ≡ is_no_length size }
{
    size == 0 || size > LONGEST_BODY
}

fn is_no_kind(kind: u8) -> bool
    ensures { result ≡ (nat_lt kind 1 || nat_lt 8 kind) }
{
    kind < 1 || kind > 8
}

/// The length of the body of a kind other than 1.
fn fixed_length(kind: u8) -> u32
    requires { kind ≤ 8 }
    ensures { result ≡ fixed_length kind }
{
    match kind {
        2 | 3 => 9,
        4 | 5 => 1,
        6 => 15,
        7 => 5,
        _ => 6,
    }
}

/// The frame of a kind other than 1 with these fields.
#[tactic(auto, unfolding(mls_model::specs::Frames::fixed_frame))]
fn fixed_frame(kind: u8, fields: &[u8]) -> FrameView<'_>
    requires { fixed_length kind ≤ 1 + length fields.now }
    ensures { frame_of result ≡ fixed_frame kind fields.now }
{
    match kind {
        2 => FrameView::Beat {
            group: number_32(fields, 0),
            life: number_32(fields, 4),
        },
        3 => FrameView::Bye {
            group: number_32(fields, 0),
            life: number_32(fields, 4),
        },
        4 => FrameView::Save,
        5 => FrameView::Crash,
        6 => FrameView::Hello {
            version: number_16(fields, 0),
            group: number_32(fields, 2),
            life: number_32(fields, 6),
            client: number_16(fields, 10),
            rank: number_16(fields, 12),
        },
        7 => FrameView::Welcome {
            lane: number_32(fields, 0),
        },
        _ => FrameView::Refuse {
            reason: fields[0],
            value: number_32(fields, 1),
        },
    }
}

/// A frame whose body has this length.
fn whole(frame: FrameView<'_>, size: u32) -> Seen<'_>
    requires { size ≤ longest_body }
    ensures { sight_of result ≡ whole (frame_of frame.entry) (4 + size) }
{
    Seen::Whole {
        frame,
        used: 4 + size,
    }
}

/// What a kind other than 1 with these fields is.
#[tactic(auto, unfolding(mls_model::specs::Frames::fixed_sight))]
fn fixed_view(size: u32, kind: u8, fields: &[u8]) -> Seen<'_>
    requires { kind ≤ 8 }
    ensures { sight_of result ≡ fixed_sight size kind fields.now }
{
    if size != fixed_length(kind) {
        return Seen::Bad(FrameFault::BadLength);
    }
    if 1 + fields.len() < size as usize {
        return Seen::More;
    }
    whole(fixed_frame(kind, fields), size)
}

/// What a piece with these fields is.
#[tactic(auto, unfolding(mls_model::specs::Frames::piece_sight))]
fn piece_view(size: u32, fields: &[u8]) -> Seen<'_>
    requires { size ≤ longest_body }
    ensures { sight_of result ≡ piece_sight size fields.now }
{
    if size < 25 || size % 2 == 0 {
        return Seen::Bad(FrameFault::BadLength);
    }
    if fields.len() < 24 {
        return Seen::More;
    }
    let samples = number_16(fields, 14) as u64 * number_32(fields, 20) as u64;
    if size as u64 != 25 + 2 * samples {
        return Seen::Bad(FrameFault::BadLength);
    }
    if 1 + fields.len() < size as usize {
        return Seen::More;
    }
    whole(FrameView::Piece(PieceView::of(fields)), size)
}

/// What stands behind a length.
#[tactic(auto, unfolding(mls_model::specs::Frames::sized_sight))]
fn sized_view(size: u32, rest: &[u8]) -> Seen<'_>
    ensures { sight_of result ≡ sized_sight size rest.now }
{
    if is_no_length(size) {
        return Seen::Bad(FrameFault::BadLength);
    }
    match rest {
        [] => Seen::More,
        [kind, fields @ ..] => {
            if is_no_kind(*kind) {
                return Seen::Bad(FrameFault::BadKind);
            }
            if *kind == 1 {
                piece_view(size, fields)
            } else {
                fixed_view(size, *kind, fields)
            }
        }
    }
}

#[tactic(auto, unfolding(mls_model::specs::Frames::sight))]
fn seen_at(bytes: &[u8]) -> Seen<'_>
    ensures { sight_of result ≡ sight bytes.now }
{
    if bytes.len() < 4 {
        return Seen::More;
    }
    sized_view(number_32(bytes, 0), &bytes[4..])
}

/// What the front of the bytes is, by the lengths that frames have. No memory is taken, and a piece's samples
/// are lent from the bytes. A longer input never changes `Whole` or `Bad`.
pub fn view(bytes: &[u8]) -> Seen<'_>
    ensures exact { sight_of result ≡ sight bytes.now }
    // A whole frame has at least five bytes, and they are there.
    ensures within { IsWithin (length bytes.now) result }
{
    seen_at(bytes)
}
