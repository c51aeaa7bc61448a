//! Bytes that are one frame's spelling.

ghost use Rattle.std.specs.Prelude.{◌≡◌, length};
ghost use Rattle.mls_model.specs.Frames.{IsFrame};
ghost use Rattle.mls_frame.specs.Views.{frame_of};

use mls_frame::{FrameView, Seen, view};
use std::marker::Model;

/// Bytes that are one frame's spelling. Its value is that frame.
#[derive(Drop)]
pub struct WholeFrame {
    bytes: Vec<u8>,
}

impl Model for WholeFrame {
    ghost use Rattle.mls_model.specs.Frames.{Frame, Spells};
    ghost use Rattle.mls_poll.specs.Wholes.{frame_in};

    ghost Value = { Frame };

    ghost view = { λ whole. frame_in whole.bytes.items };

    ghost invariant = { λ whole. Spells (frame_in whole.bytes.items) whole.bytes.items };
}

impl WholeFrame {
    ghost use Rattle.mls_model.specs.Frames.{Spells, spelling};
    ghost use Rattle.mls_poll.specs.Wholes.{frame_in};

    /// The frame that the bytes spell.
    pub fn of(bytes: Vec<u8>) -> WholeFrame
        requires { Spells (frame_in bytes.items) bytes.items }
        ensures { result ≡ frame_in bytes.items }
    {
        WholeFrame { bytes }
    }

    /// The number of the bytes.
    pub fn size(&self) -> u64
        ensures { result ≡ length (spelling self.now) }
    {
        self.bytes.len() as u64
    }

    /// The frame. No memory is taken.
    pub fn view(&self) -> FrameView<'_>
        ensures frame { frame_of result ≡ self.now }
        ensures fits { IsFrame self.now }
    {
        match view(self.bytes.as_slice()) {
            Seen::Whole { frame, .. } => frame,
            Seen::More | Seen::Bad(_) => unreachable!(),
        }
    }
}
