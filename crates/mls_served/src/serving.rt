//! The command `serve`, from a study on.

ghost use Rattle.std.specs.Prelude.{◌≡◌, ◌≤◌, None, vec_len};
ghost use Rattle.mls_text.specs.Writing.{sink_seen};
ghost use Rattle.mls_book.specs.Keepers.{keepers_seen};
ghost use Rattle.mls_desk.specs.Ends.{AreCoresOf};
ghost use Rattle.mls_served.specs.Doors.{door_seen};
ghost use Rattle.mls_served.specs.Serving.{EndsServe, Serves, serve_status, served_text, written_status};

use crate::writing::write_served;
use mls_base::clock::Clock;
use mls_base::gate::Gate;
use mls_base::outside::{Keeper, Sink};
use mls_book::BookFault;
use mls_launch::OutFault;
use mls_result::Status;
use mls_serve::LaneFault;
use mls_server::{ServeEnd, ServeFault, serve};
use mls_study::Study;
use mls_wire::Door;
use std::alloc::Global;
use std::sync::Wait;
use std::thread::Threads;

/// What is answered after a fault of a server.
fn fault_status(fault: ServeFault) -> Status
    ensures { result ≡ serve_status fault }
{
    match fault {
        ServeFault::DoorFault => Status::DoorFault,
        ServeFault::Rank(LaneFault { rank, fault }) => match fault {
            BookFault::KeeperFault => Status::KeeperFault { rank },
            BookFault::CheckpointBad { at, why } => Status::CheckpointBad { rank, at, why },
            BookFault::Memory => Status::Memory,
        },
        ServeFault::Memory => Status::Memory,
    }
}

/// What is answered after the text.
fn written_status(answer: Result<(), OutFault>) -> Status
    ensures { result ≡ written_status answer }
{
    match answer {
        Ok(()) => Status::Done,
        Err(OutFault::WriteFault) => Status::WriteFault,
        Err(OutFault::Memory) => Status::Memory,
    }
}

/// Writes the text of what a server ended with, where it met no fault.
fn end_serve<K: Keeper + Drop, D: Door + Drop, O: Sink>(
    alloc: Global,
    study: &Study,
    end: ServeEnd<K, D>,
    out: &mut O,
) -> (Status, Vec<K>, D)
    requires cores { end.fault ≡ None → AreCoresOf study.now.sizes end.cores.items }
    ensures ends { EndsServe end.fault (served_text study.now end.cores.items end.lines.items end.events.items)
        (sink_seen O.told O.faults O.sure out.old) (sink_seen O.told O.faults O.sure out.new) result.0 }
    ensures keepers { result.1 ≡ end.keepers }
    ensures door { result.2 ≡ end.door }
{
    let ServeEnd {
        cores,
        lines,
        events,
        keepers,
        door,
        fault,
    } = end;
    match fault {
        Some(fault) => return (fault_status(fault), keepers, door),
        None => {}
    }
    let answer = write_served(
        alloc,
        study,
        cores.as_slice(),
        lines.as_slice(),
        events.as_slice(),
        out,
    );
    (written_status(answer), keepers, door)
}

/// Serves so many connections at an address for a study, and writes the result text and then the watch text.
///
/// Nothing is written before all connections were served and each rank's state was saved. The keepers and the door come
/// back whatever is answered.
pub fn serve_study<
    R: Threads + Wait + Sync,
    O: Sink,
    K: Keeper + Drop + Send,
    D: Door + Drop + Send,
    C: Clock + Drop + Send,
    G: Gate + Sync,
>(
    rt: &R,
    alloc: Global,
    study: &Study,
    addr: &str,
    connections: u32,
    out: &mut O,
    keepers: Vec<K>,
    door: D,
    clock: C,
    gate: &G,
) -> (Status, Vec<K>, D)
where
    D::L: Send,
    requires keepers { vec_len keepers ≡ 64 }
    requires few { connections ≤ 65535 }
    ensures serves { Serves (record { study = study.now; connections = connections })
        (sink_seen O.told O.faults O.sure out.old) (sink_seen O.told O.faults O.sure out.new)
        (keepers_seen K.Keeper keepers.items) (keepers_seen K.Keeper result.1.items)
        (door_seen D.closed D.faults D.link_faults D.accepts D.sound D.awaited door)
        (door_seen D.closed D.faults D.link_faults D.accepts D.sound D.awaited result.2) result.0 }
    ensures places { vec_len result.1 ≡ 64 }
{
    study.valid();
    let mut door = door;
    match door.listen(addr) {
        Ok(()) => {}
        Err(_) => return (Status::DoorFault, keepers, door),
    }
    let end = serve(rt, alloc, study, connections, keepers, door, clock, gate);
    end_serve(alloc, study, end, out)
}
