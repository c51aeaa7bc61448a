//! The group's reading of the server's answer.

ghost use Rattle.std.specs.Prelude.{◌≡◌};
ghost use Rattle.mls_frame.specs.Views.{frame_of};
ghost use Rattle.mls_wire.specs.Sessions.{reply_of};

use mls_frame::FrameView;

/// What the server's answer says.
#[derive(Clone, Copy, Debug, PartialEq, Eq)]
pub enum Reply {
    /// The connection is taken, as the lane of this number.
    Welcome { lane: u32 },
    /// It is refused.
    Refused { reason: u8, value: u32 },
    /// The frame is no answer: it is of one of the six other kinds.
    Other,
}

/// What a frame says as the server's answer.
pub fn answer(view: &FrameView<'_>) -> Reply
    ensures exact { result ≡ reply_of (frame_of view.now) }
{
    match view {
        FrameView::Welcome { lane } => Reply::Welcome { lane: *lane },
        FrameView::Refuse { reason, value } => Reply::Refused {
            reason: *reason,
            value: *value,
        },
        _ => Reply::Other,
    }
}
