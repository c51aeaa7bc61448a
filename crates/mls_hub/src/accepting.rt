//! The door of a hub: its connections as they come.

ghost use Rattle.std.specs.Prelude.{◌≡◌, ◌+◌, ◌<◌, ◌≤◌, length};
ghost use Rattle.futures.specs.Task.{IsArmed, Keeps};
ghost use Rattle.mls_hub.specs.Accepts.{HaveCome, CountsAccepted, OnAll, OnWaits};

use crate::connection::{Connection, Stage};
use futures::task::{Context, Poll};
use mls_poll::{FrameStream, PollDoor};
use std::alloc::Global;

/// What became of the connections that were wanted.
#[derive(Clone, Copy, Debug)]
pub enum Accepted {
    /// They all came.
    All,
    /// The next one didn't come yet.
    Waits,
    /// An accept failed.
    Failed,
    /// Memory ran out.
    Memory,
}

/// Accepts the next connection, behind the others.
fn accept_one<D: PollDoor>(
    alloc: Global,
    door: &mut D,
    connections: &mut Vec<Connection<D::L>>,
    cx: &mut Context<'_>,
) -> Accepted
    ensures come { HaveCome D.L.PollLink connections.old.items connections.new.items }
    ensures one { OnAll result (length connections.new.items ≡ length connections.old.items + 1) }
    ensures few { length connections.new.items ≤ length connections.old.items + 1 }
    ensures none { OnWaits result (length connections.new.items ≡ length connections.old.items) }
    ensures counts { CountsAccepted result (D.faults door.old) (D.faults door.new) (D.waits door.old) (D.waits door.new) }
    ensures armed { OnWaits result (IsArmed cx.new) }
    ensures cx_kept { Keeps cx.old cx.new }
{
    let link = match door.poll_accept(cx) {
        Poll::Pending => return Accepted::Waits,
        Poll::Ready(Err(_)) => return Accepted::Failed,
        Poll::Ready(Ok(link)) => link,
    };
    let stream = match FrameStream::new(alloc, link) {
        Ok(stream) => stream,
        Err(_) => return Accepted::Memory,
    };
    let connection = Connection {
        stream,
        stage: Stage::Opening,
        answer: Vec::new(alloc),
        written: 0,
    };
    match connections.push(connection) {
        Ok(()) => Accepted::All,
        Err(_) => Accepted::Memory,
    }
}

/// Accepts connections up to as many as are wanted.
pub fn accept_all<D: PollDoor>(
    alloc: Global,
    wanted: u32,
    door: &mut D,
    connections: &mut Vec<Connection<D::L>>,
    cx: &mut Context<'_>,
) -> Accepted
    requires few { length connections.old.items ≤ wanted }
    ensures come { HaveCome D.L.PollLink connections.old.items connections.new.items }
    ensures few { length connections.new.items ≤ wanted }
    ensures all { OnAll result (length connections.new.items ≡ wanted) }
    ensures some { OnWaits result (length connections.new.items < wanted) }
    ensures counts { CountsAccepted result (D.faults door.old) (D.faults door.new) (D.waits door.old) (D.waits door.new) }
    ensures armed { OnWaits result (IsArmed cx.new) }
    ensures cx_kept { Keeps cx.old cx.new }
{
    while connections.len() < wanted as usize {
        match accept_one(alloc, door, connections, cx) {
            Accepted::All => {}
            Accepted::Waits => return Accepted::Waits,
            Accepted::Failed => return Accepted::Failed,
            Accepted::Memory => return Accepted::Memory,
        }
    }
    Accepted::All
}
