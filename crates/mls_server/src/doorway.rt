//! The door of a server, which its workers share under a lock.

ghost use Rattle.std.specs.Prelude.{◌≡◌, ◌+◌, ◌<◌, ◌≤◌, ◌^◌, true, false, IfOk, IfSome, IfNone, OnErr, OnOk};
ghost use Rattle.mls_wire.specs.Links.{IsFresh};
ghost use Rattle.mls_server.specs.Doorways.{DoorwayView, IsDoorway, IsDoorRun, IsDrawn, SamePlace};

use crate::names::Server;
use mls_base::faults::{Failed, NoMemory};
use mls_wire::Door;
use std::alloc::Global;
use std::marker::{Model, PhantomData};
use std::sync::Mutex;

/// A link that was accepted, with the number of its lane.
#[derive(Drop)]
pub struct Drawn<D: Door> {
    pub lane: u32,
    pub link: D::L,
}

/// A server's door, with the number of the next lane, how many accepts are left, and whether one failed.
///
/// Its type keeps that the accepts made and those that are left are the connections of the run, that each lane number
/// is drawn once, and that the door's count of faults rose where an accept failed.
#[derive(Drop)]
pub struct Doorway<D: Door + Drop, N: Server> {
    door: D,
    next: u32,
    left: u32,
    failed: bool,
    run: PhantomData<N>,
}

/// A server's door under its lock.
pub type DoorCell<D, N> = Mutex<Doorway<D, N>>;

impl<D: Door + Drop, N: Server> Model for Doorway<D, N> {
    ghost use Rattle.mls_server.specs.Doorways.{DoorwayView, IsDoorway};

    ghost Value = { DoorwayView D };

    ghost view = { λ w. record { door = w.door; next = w.next; left = w.left; failed = w.failed } };

    ghost invariant = { λ w. IsDoorway N.Run N.enough D.accepts D.faults D.awaited
        (record { door = w.door; next = w.next; left = w.left; failed = w.failed }) };
}

impl<D: Door + Drop, N: Server> Doorway<D, N> {
    /// The door before the first accept for so many connections; the first client lane comes after the ranks' control
    /// lanes.
    pub fn new(door: D, ranks: u32, connections: u32) -> Doorway<D, N>
        requires ranks { ranks ≡ N.sizes.ranks }
        requires small { ranks + connections < 2 ^ 32 }
        requires names { IsDoorRun N.Run N.enough D.accepts D.faults D.awaited door connections }
    {
        Doorway {
            door,
            next: ranks,
            left: connections,
            failed: false,
            run: PhantomData,
        }
    }

    /// What the type keeps.
    pub fn valid(&self)
        ensures { IsDoorway N.Run N.enough D.accepts D.faults D.awaited self.now }
    {
        let _ = &self.door;
    }

    /// How many accepts are left.
    pub fn left(&self) -> u32
        ensures { result ≡ self.now.left }
    {
        self.left
    }

    /// Whether an accept failed.
    pub fn has_failed(&self) -> bool
        ensures { result ≡ self.now.failed }
    {
        self.failed
    }

    /// Accepts a link for the next lane, where accepts are left.
    pub fn draw(&mut self) -> Result<Option<Drawn<D>>, Failed>
        ensures drawn { IfOk result (λ given. IfSome given (λ drawn. IsDrawn D.accepts self.old self.new drawn.lane)) }
        ensures client { IfOk result (λ given. IfSome given (λ drawn. N.sizes.ranks ≤ drawn.lane)) }
        ensures within { IfOk result (λ given. IfSome given (λ drawn. drawn.lane < N.lane_count)) }
        ensures none { IfOk result (λ given. IfNone given (self.old.left ≡ 0)) }
        ensures failed { OnErr result (self.new.failed ≡ true) }
        ensures kept { OnErr result (SamePlace self.old self.new) }
    {
        if self.left == 0 {
            return Ok(None);
        }
        match self.door.accept() {
            Ok(link) => {
                let lane = self.next;
                self.next += 1;
                self.left -= 1;
                Ok(Some(Drawn { lane, link }))
            }
            Err(_) => {
                self.failed = true;
                Err(Failed)
            }
        }
    }

    /// Takes a link back.
    pub fn close(&mut self, alloc: Global, link: D::L) -> Result<(), NoMemory>
        ensures place { SamePlace self.old self.new }
        ensures failed { self.new.failed ≡ self.old.failed }
    {
        self.door.close(alloc, link)
    }

    /// The door.
    pub fn into_door(self) -> D
        ensures { result ≡ self.door }
    {
        self.door
    }
}
