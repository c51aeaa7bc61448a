//! The answer to a connection's first frame, and the end of a lane behind it.

ghost use Rattle.std.specs.Prelude.{◌≡◌, IfOk};
ghost use Rattle.mls_model.specs.Frames.{spelling};
ghost use Rattle.mls_frame.specs.Owned.{owned_frame};
ghost use Rattle.mls_hub.specs.Connections.{answer_of, behind};

use mls_base::faults::NoMemory;
use mls_frame::{Frame, put};
use mls_model::lanes::LaneEnd;
use mls_wire::Greeting;
use std::alloc::Global;

/// The end with its place counted from behind so many bytes.
pub fn behind(head: u64, end: LaneEnd) -> LaneEnd
    ensures { result ≡ behind head end }
{
    match end {
        LaneEnd::Clean => LaneEnd::Clean,
        LaneEnd::Cut { at } => LaneEnd::Cut {
            at: at.saturating_sub(head),
        },
        LaneEnd::BadKind { at } => LaneEnd::BadKind {
            at: at.saturating_sub(head),
        },
        LaneEnd::BadLength { at } => LaneEnd::BadLength {
            at: at.saturating_sub(head),
        },
        LaneEnd::Fault { at } => LaneEnd::Fault {
            at: at.saturating_sub(head),
        },
        LaneEnd::Full { at } => LaneEnd::Full {
            at: at.saturating_sub(head),
        },
    }
}

/// The frame that answers.
fn answer_frame(greeting: Greeting, lane: u32) -> Frame
    ensures { owned_frame result ≡ answer_of greeting lane }
{
    match greeting {
        Greeting::Welcome { .. } => Frame::Welcome { lane },
        Greeting::Refuse { reason, value } => Frame::Refuse { reason, value },
    }
}

/// The bytes of the answer.
pub fn answer_bytes(alloc: Global, greeting: Greeting, lane: u32) -> Result<Vec<u8>, NoMemory>
    ensures { IfOk result (λ bytes. bytes.items ≡ spelling (answer_of greeting lane)) }
{
    let mut bytes = Vec::new(alloc);
    put(&answer_frame(greeting, lane), &mut bytes)?;
    Ok(bytes)
}
