//! A connection that a server accepted.

ghost use Rattle.std.specs.Prelude.{◌≡◌, ◌<◌, ◌≤◌};

use crate::board::BoardCell;
use crate::doorway::{DoorCell, Doorway, Drawn};
use crate::faults::ServeFault;
use crate::names::Server;
use mls_base::faults::NoMemory;
use mls_base::gate::{Gate, OpenGate};
use mls_base::shape::Shape;
use mls_serve::{Note, Post, Served, serve_lane};
use mls_wire::{Door, Link};
use std::alloc::Global;
use std::sync::Wait;

/// Serves a link as the lane with this number, and keeps the lane's line.
fn serve_link<R: Wait, L: Link, P: Post, N: Server>(
    rt: &R,
    alloc: Global,
    shape: &Shape,
    lane: u32,
    link: &mut L,
    post: &mut P,
    board: &BoardCell<N>,
) -> Result<(), ServeFault>
    requires shape { shape.now ≡ N.sizes }
    requires ranks { P.ranks post.old ≡ N.sizes.ranks }
    requires lanes { P.lanes post.old ≡ N.lane_count }
    requires client { N.sizes.ranks ≤ lane }
    requires within { lane < N.lane_count }
    ensures ranks { P.ranks post.new ≡ P.ranks post.old }
    ensures lanes { P.lanes post.new ≡ P.lanes post.old }
{
    match serve_lane(alloc, shape, lane, link, post) {
        Ok(Served::Lane(line)) => {
            board.lock(rt).keep(lane, line);
            Ok(())
        }
        Ok(_) => Ok(()),
        Err(fault) => Err(ServeFault::Rank(fault)),
    }
}

/// Tells the watch that a connection came or ended.
fn tick<P: Post>(alloc: Global, post: &mut P) -> Result<(), ServeFault>
    ensures ranks { P.ranks post.new ≡ P.ranks post.old }
    ensures lanes { P.lanes post.new ≡ P.lanes post.old }
{
    match post.note(alloc, Note::Tick) {
        Ok(()) => Ok(()),
        Err(_) => Err(ServeFault::Memory),
    }
}

/// A worker's number, and the number of its turn.
#[derive(Clone, Copy, Debug)]
pub struct Turn {
    pub worker: u32,
    pub number: u32,
}

/// Tells the watch of a link that was accepted, passes the gate without a lock, and serves the link.
fn admit<R: Wait, L: Link, P: Post, N: Server, G: Gate>(
    rt: &R,
    alloc: Global,
    shape: &Shape,
    lane: u32,
    link: &mut L,
    post: &mut P,
    board: &BoardCell<N>,
    gate: &G,
    turn: Turn,
) -> Result<(), ServeFault>
    requires shape { shape.now ≡ N.sizes }
    requires ranks { P.ranks post.old ≡ N.sizes.ranks }
    requires lanes { P.lanes post.old ≡ N.lane_count }
    requires client { N.sizes.ranks ≤ lane }
    requires within { lane < N.lane_count }
    ensures ranks { P.ranks post.new ≡ P.ranks post.old }
    ensures lanes { P.lanes post.new ≡ P.lanes post.old }
{
    tick(alloc, post)?;
    gate.pass(turn.worker, turn.number);
    serve_link(rt, alloc, shape, lane, link, post, board)
}

/// The first of the faults of a connection: of its service, of the close of its link, or of the tick at its end.
fn end_link<P: Post>(
    alloc: Global,
    post: &mut P,
    served: Result<(), ServeFault>,
    closed: Result<(), NoMemory>,
) -> Result<(), ServeFault>
    ensures ranks { P.ranks post.new ≡ P.ranks post.old }
    ensures lanes { P.lanes post.new ≡ P.lanes post.old }
{
    let ticked = tick(alloc, post);
    served?;
    match closed {
        Ok(()) => ticked,
        Err(_) => Err(ServeFault::Memory),
    }
}

/// Accepts the next connection through the door's lock and serves it, where accepts are left. It answers whether they
/// were. The link is closed whatever happens.
pub fn serve_shared<R: Wait, D: Door + Drop, P: Post, N: Server, G: Gate>(
    rt: &R,
    alloc: Global,
    shape: &Shape,
    door: &DoorCell<D, N>,
    post: &mut P,
    board: &BoardCell<N>,
    gate: &G,
    turn: Turn,
) -> Result<bool, ServeFault>
    requires shape { shape.now ≡ N.sizes }
    requires ranks { P.ranks post.old ≡ N.sizes.ranks }
    requires lanes { P.lanes post.old ≡ N.lane_count }
{
    let drawn = match door.lock(rt).draw() {
        Ok(Some(drawn)) => drawn,
        Ok(None) => return Ok(false),
        Err(_) => return Err(ServeFault::DoorFault),
    };
    let Drawn { lane, link } = drawn;
    let mut link = link;
    let served = admit(rt, alloc, shape, lane, &mut link, post, board, gate, turn);
    let closed = door.lock(rt).close(alloc, link);
    end_link(alloc, post, served, closed)?;
    Ok(true)
}

/// The same through the door itself, without the gate.
pub fn serve_alone<R: Wait, D: Door + Drop, P: Post, N: Server>(
    rt: &R,
    alloc: Global,
    shape: &Shape,
    door: &mut Doorway<D, N>,
    post: &mut P,
    board: &BoardCell<N>,
    turn: Turn,
) -> Result<bool, ServeFault>
    requires shape { shape.now ≡ N.sizes }
    requires ranks { P.ranks post.old ≡ N.sizes.ranks }
    requires lanes { P.lanes post.old ≡ N.lane_count }
{
    let drawn = match door.draw() {
        Ok(Some(drawn)) => drawn,
        Ok(None) => return Ok(false),
        Err(_) => return Err(ServeFault::DoorFault),
    };
    let Drawn { lane, link } = drawn;
    let mut link = link;
    let served = admit(
        rt, alloc, shape, lane, &mut link, post, board, &OpenGate, turn,
    );
    let closed = door.close(alloc, link);
    end_link(alloc, post, served, closed)?;
    Ok(true)
}
