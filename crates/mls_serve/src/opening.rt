//! How a connection begins: its first frame, and the answer.

ghost use Rattle.std.specs.Prelude.{◌≡◌, [], IfOk, OnErr};
ghost use Rattle.mls_model.specs.Frames.{spelling, sight};
ghost use Rattle.mls_frame.specs.Feeding.{after_next};
ghost use Rattle.mls_frame.specs.Owned.{owned_frame};
ghost use Rattle.mls_serve.specs.Readings.{ReadLost};
ghost use Rattle.mls_serve.specs.Openings.{IsFirst, HasOpened, answer_of};

use crate::reading::read_on;
use crate::stepping::bad_end;
use mls_base::faults::NoMemory;
use mls_base::shape::Shape;
use mls_frame::{Feeder, Frame, FrameFault, Seen, put};
use mls_model::lanes::LaneEnd;
use mls_wire::{Greeting, Link, greet};
use std::alloc::Global;

/// What a look at a connection's first bytes gave.
#[derive(Clone, Copy, Debug)]
pub enum First {
    /// A whole frame, which was taken off, and the answer to it.
    Greeted(Greeting),
    /// Too little to tell.
    More,
    /// No frame's front.
    Bad(FrameFault),
}

/// How a connection began.
#[derive(Clone, Copy, Debug)]
pub enum Opening {
    /// With a whole frame, which is answered so.
    Greeted(Greeting),
    /// No whole frame came.
    Ended(LaneEnd),
}

/// Looks at a connection's first bytes. A whole frame is taken off.
fn look_first(shape: &Shape, feeder: &mut Feeder) -> First
    ensures fed { feeder.new ≡ after_next feeder.old }
    ensures first { IsFirst result shape.now (sight feeder.old.rest) }
{
    match feeder.next() {
        Seen::Whole { frame, .. } => First::Greeted(greet(shape, &frame)),
        Seen::More => First::More,
        Seen::Bad(fault) => First::Bad(fault),
    }
}

/// Reads up to the first whole frame of a connection, or to its end before one. After `NoMemory` bytes that were read
/// are lost.
pub fn hear_first<L: Link>(
    alloc: Global,
    shape: &Shape,
    link: &mut L,
    feeder: &mut Feeder,
) -> Result<Opening, NoMemory>
    requires fresh { feeder.old ≡ record { offset = 0; rest = [] } }
    ensures opened { IfOk result (λ opening. HasOpened opening shape.now (L.told link.old) (L.told link.new)
        (L.faults link.old) (L.faults link.new) feeder.new) }
    ensures lost { OnErr result (ReadLost (L.told link.old) (L.told link.new)) }
    ensures unfailed { OnErr result (L.faults link.new ≡ L.faults link.old) }
{
    loop {
        match look_first(shape, feeder) {
            First::Greeted(greeting) => return Ok(Opening::Greeted(greeting)),
            First::Bad(fault) => return Ok(Opening::Ended(bad_end(fault, 0))),
            First::More => {
                if let Some(end) = read_on(alloc, link, feeder, 0)? {
                    return Ok(Opening::Ended(end));
                }
            }
        }
    }
}

/// The frame that answers.
fn answer_frame(greeting: &Greeting, lane: u32) -> Frame
    ensures { owned_frame result ≡ answer_of greeting.now lane }
{
    match greeting {
        Greeting::Welcome { .. } => Frame::Welcome { lane },
        Greeting::Refuse { reason, value } => Frame::Refuse {
            reason: *reason,
            value: *value,
        },
    }
}

/// The bytes of the answer.
pub fn answer_bytes(alloc: Global, greeting: &Greeting, lane: u32) -> Result<Vec<u8>, NoMemory>
    ensures { IfOk result (λ bytes. bytes.items ≡ spelling (answer_of greeting.now lane)) }
{
    let mut bytes = Vec::new(alloc);
    put(&answer_frame(greeting, lane), &mut bytes)?;
    Ok(bytes)
}
