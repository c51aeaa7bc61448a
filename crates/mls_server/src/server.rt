//! A server of connections, from its beginning to its end.

ghost use Rattle.std.specs.Prelude.{◌≡◌, ◌+◌, ◌≤◌, [], IsTrue, length, vec_len, Some, None, IfOk, IfSome};
ghost use Rattle.mls_book.specs.Keepers.{keepers_seen};
ghost use Rattle.mls_desk.specs.Books.{AreClean, AreSaved, AreSeated};
ghost use Rattle.mls_desk.specs.Desks.{HasRoom, IsDeskRun};
ghost use Rattle.mls_desk.specs.Ends.{AreCoresOf, HoldLast};
ghost use Rattle.mls_server.specs.Doorways.{IsDoorRun};
ghost use Rattle.mls_server.specs.Ends.{AreSince, DoorSince, IsSureDoor, ServeFaultSays};
ghost use Rattle.mls_server.specs.Lines.{AreLines};
ghost use Rattle.mls_server.specs.Settled.{IsShown};

use crate::board::{Board, BoardCell};
use crate::doorway::Doorway;
use crate::faults::ServeFault;
use crate::names::Server;
use crate::settling::settle;
use crate::workers::{Worker, run_workers, workers_for};
use mls_base::clock::Clock;
use mls_base::faults::NoMemory;
use mls_base::gate::Gate;
use mls_base::outside::Keeper;
use mls_book::Book;
use mls_desk::{BegunDesk, Desk, DeskEnd, Rooms, begin_desk, end_desk, last_saves};
use mls_field::field::Field;
use mls_launch::Event;
use mls_model::lanes::LaneLine;
use mls_rank::RankCore;
use mls_study::Study;
use mls_tape::Wire;
use mls_wire::Door;
use std::alloc::Global;
use std::marker::Brand;
use std::sync::{Mutex, Wait};
use std::thread::Threads;

/// What a server ends with: the ranks' cores, the lines of the lanes that it served, what its watch heard, the keepers
/// and the door that it was given, and the fault that ended it early.
#[derive(Drop)]
pub struct ServeEnd<K: Keeper + Drop, D: Door + Drop> {
    pub cores: Vec<RankCore<Field>>,
    pub lines: Vec<LaneLine>,
    pub events: Vec<Event>,
    pub keepers: Vec<K>,
    pub door: D,
    pub fault: Option<ServeFault>,
}

/// Want of memory before the first accept: what was given comes back.
fn unstarted<K: Keeper + Drop, D: Door + Drop>(
    alloc: Global,
    keepers: Vec<K>,
    door: D,
) -> ServeEnd<K, D>
    ensures lines { result.lines.items ≡ [] }
    ensures keepers { result.keepers ≡ keepers }
    ensures items { result.keepers.items ≡ keepers.items }
    ensures door { result.door ≡ door }
    ensures fault { result.fault ≡ Some ServeFault.Memory }
{
    ServeEnd {
        cores: Vec::new(alloc),
        lines: Vec::new(alloc),
        events: Vec::new(alloc),
        keepers,
        door,
        fault: Some(ServeFault::Memory),
    }
}

/// The workers, and the board for the lines.
#[derive(Drop)]
struct Crew<N: Server> {
    workers: Vec<Worker>,
    board: Board<N>,
}

/// A crew for so many connections.
fn crew_for<N: Server>(alloc: Global, ranks: u32, connections: u32) -> Result<Crew<N>, NoMemory>
    requires ranks { ranks ≡ N.sizes.ranks }
    requires lanes { ranks + connections ≡ N.lane_count }
{
    let workers = workers_for(alloc, connections)?;
    let board = Board::new(alloc, ranks, connections)?;
    Ok(Crew { workers, board })
}

/// Where no fault was met, one last Save on each rank's control lane.
fn save_last<K: Keeper + Drop, N: Server>(
    alloc: Global,
    books: &mut Vec<Book<Wire, Field, K>>,
    met: Option<ServeFault>,
    failed: bool,
) -> Option<ServeFault>
    requires few { vec_len books.old ≤ 64 }
    requires lanes { vec_len books.old ≤ N.lane_count }
    requires seated { AreSeated K.Keeper N.Run books.old.items }
    requires clean { met ≡ None → AreClean books.old.items }
    requires shown { IfSome met (IsShown books.old.items failed) }
    ensures seated { AreSeated K.Keeper N.Run books.new.items }
    ensures count { vec_len books.new ≡ vec_len books.old }
    ensures saved { result ≡ None → AreSaved K.Keeper books.new.items }
    ensures unmet { result ≡ None → met ≡ None }
    ensures shown { IfSome result (IsShown books.new.items failed) }
{
    match met {
        Some(fault) => return Some(fault),
        None => {}
    }
    match last_saves::<K, N>(alloc, books) {
        Some(fault) => Some(ServeFault::Rank(fault)),
        None => None,
    }
}

/// Serves the connections of a door through a desk, up to the last saves. The books are taken out of the desk.
fn serve_all<
    N: Server + Send + Sync,
    R: Threads + Wait + Sync,
    D: Door + Drop + Send,
    K: Keeper + Drop + Send,
    C: Clock + Drop + Send,
    G: Gate + Sync,
>(
    rt: &R,
    alloc: Global,
    desk: &Desk<K, C, N>,
    door: Doorway<D, N>,
    board: &BoardCell<N>,
    gate: &G,
    workers: Vec<Worker>,
    books: &mut Vec<Book<Wire, Field, K>>,
) -> (Doorway<D, N>, Option<ServeFault>)
where
    D::L: Send,
    requires room { HasRoom books.old }
    ensures count { length books.new.items ≡ desk.now.sizes.ranks }
    ensures seated { AreSeated K.Keeper N.Run books.new.items }
    ensures whole { result.1 ≡ None → result.0.left ≡ 0 }
    ensures saved { result.1 ≡ None → AreSaved K.Keeper books.new.items }
    ensures shown { IfSome result.1 (IsShown books.new.items result.0.failed) }
{
    desk.valid();
    let mut workers = workers;
    let door = Mutex::new(door);
    run_workers(rt, alloc, desk, &door, board, gate, workers.as_mut_slice());
    let mut door = door.into_inner();
    let met = settle(rt, alloc, desk, &mut door, board, workers.as_slice(), books);
    let fault = save_last::<K, N>(alloc, books, met, door.has_failed());
    (door, fault)
}

/// Serves so many connections under the names of one run.
fn serve_named<
    N: Server + Send + Sync,
    R: Threads + Wait + Sync,
    D: Door + Drop + Send,
    K: Keeper + Drop + Send,
    C: Clock + Drop + Send,
    G: Gate + Sync,
>(
    rt: &R,
    alloc: Global,
    study: &Study,
    connections: u32,
    keepers: Vec<K>,
    door: D,
    clock: C,
    gate: &G,
) -> ServeEnd<K, D>
where
    D::L: Send,
    requires keepers { vec_len keepers ≡ 64 }
    requires few { connections ≤ 65535 }
    requires desk { IsDeskRun N.Run (study.now.sizes.ranks + connections) study.now.sizes
        (keepers_seen K.Keeper keepers.items) }
    requires door { IsDoorRun N.Run N.enough D.accepts D.faults D.awaited door connections }
    requires sure { IsSureDoor (D.accepts door) (D.awaited door) connections → IsTrue N.enough }
    ensures cores { result.fault ≡ None → AreCoresOf study.now.sizes result.cores.items }
    ensures last { result.fault ≡ None → HoldLast study.now.sizes result.cores.items
        (keepers_seen K.Keeper keepers.items) (keepers_seen K.Keeper result.keepers.items) }
    ensures accepts { result.fault ≡ None → D.accepts result.door ≡ D.accepts door + connections }
    ensures lines { AreLines study.now.sizes.ranks (study.now.sizes.ranks + connections) result.lines.items }
    ensures places { vec_len result.keepers ≡ 64 }
    ensures since { AreSince study.now.sizes.ranks
        (keepers_seen K.Keeper keepers.items) (keepers_seen K.Keeper result.keepers.items) }
    ensures door { DoorSince D.accepts D.faults connections door result.door }
    ensures fault { IfSome result.fault (ServeFaultSays D.accepts D.faults D.awaited connections door result.door
        study.now.sizes (keepers_seen K.Keeper keepers.items) (keepers_seen K.Keeper result.keepers.items)) }
{
    study.valid();
    let shape = study.shape();
    let ranks = shape.ranks();
    let (workers, board) = match crew_for::<N>(alloc, ranks, connections) {
        Ok(Crew { workers, board }) => (workers, Mutex::new(board)),
        Err(_) => return unstarted(alloc, keepers, door),
    };
    let begun = match begin_desk::<K, C, N>(alloc, &shape, connections, keepers, clock) {
        Ok(begun) => begun,
        Err(refused) => return unstarted(alloc, refused.keepers, door),
    };
    let BegunDesk { desk, rooms, spare } = begun;
    let Rooms { books, cores } = rooms;
    let mut books = books;
    let door = Doorway::new(door, ranks, connections);
    let (door, fault) = serve_all(rt, alloc, &desk, door, &board, gate, workers, &mut books);
    door.valid();
    let DeskEnd { cores, keepers } = end_desk::<K, N>(books, cores, spare);
    ServeEnd {
        cores,
        lines: board.into_inner().into_lines(),
        events: desk.into_events(),
        keepers,
        door: door.into_door(),
        fault,
    }
}

/// Serves so many connections of a door, by as many workers, but at most eight. Each accepts one connection after
/// another, passes the gate with its turn from 0 while it holds no lock, and serves it. When all have returned and none
/// met a fault, the caller serves what they left, without the gate, and then each rank's state is saved once more.
///
/// The fault that is answered is the one of the least worker that met one, then the caller's. One that isn't shown, by
/// the door or by the rank's book, counts as not met. Where none is left, the store fault of the least rank whose book
/// shows one is answered. For want of memory before the first accept the keepers and the door come back as they were.
pub fn serve<
    R: Threads + Wait + Sync,
    D: Door + Drop + Send,
    K: Keeper + Drop + Send,
    C: Clock + Drop + Send,
    G: Gate + Sync,
>(
    rt: &R,
    alloc: Global,
    study: &Study,
    lanes: u32,
    keepers: Vec<K>,
    door: D,
    clock: C,
    gate: &G,
) -> ServeEnd<K, D>
where
    D::L: Send,
    requires keepers { vec_len keepers ≡ 64 }
    requires few { lanes ≤ 65535 }
    ensures cores { result.fault ≡ None → AreCoresOf study.now.sizes result.cores.items }
    ensures last { result.fault ≡ None → HoldLast study.now.sizes result.cores.items
        (keepers_seen K.Keeper keepers.items) (keepers_seen K.Keeper result.keepers.items) }
    ensures accepts { result.fault ≡ None → D.accepts result.door ≡ D.accepts door + lanes }
    ensures lines { AreLines study.now.sizes.ranks (study.now.sizes.ranks + lanes) result.lines.items }
    ensures places { vec_len result.keepers ≡ 64 }
    ensures since { AreSince study.now.sizes.ranks
        (keepers_seen K.Keeper keepers.items) (keepers_seen K.Keeper result.keepers.items) }
    ensures door { DoorSince D.accepts D.faults lanes door result.door }
    ensures fault { IfSome result.fault (ServeFaultSays D.accepts D.faults D.awaited lanes door result.door
        study.now.sizes (keepers_seen K.Keeper keepers.items) (keepers_seen K.Keeper result.keepers.items)) }
{
    serve_named::<Brand, R, D, K, C, G>(rt, alloc, study, lanes, keepers, door, clock, gate)
}
