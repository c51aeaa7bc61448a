//! The command `serve`.

ghost use Rattle.std.specs.Prelude.{◌≡◌, ◌≤◌, vec_len};
ghost use Rattle.mls_text.specs.Writing.{sink_seen};
ghost use Rattle.mls_book.specs.Keepers.{keepers_seen};
ghost use Rattle.mls_load.specs.Refusals.{seen};
ghost use Rattle.mls_served.specs.Doors.{door_seen};
ghost use Rattle.mls_live.specs.Answers.{IsUncalled};
ghost use Rattle.mls_live.specs.Ideal.{right_serving};
ghost use Rattle.mls_live.specs.Tasks.{CarriesOut, as_serves};

use mls_base::clock::Clock;
use mls_base::gate::Gate;
use mls_base::outside::{Files, Keeper, Sink};
use mls_load::load_study;
use mls_result::Status;
use mls_served::serve_study;
use mls_wire::Door;
use std::alloc::Global;
use std::sync::Wait;
use std::thread::Threads;

/// Serves so many connections at an address for the study of a name.
pub(crate) fn run_serve<
    R: Threads + Wait + Sync,
    F: Files,
    O: Sink,
    K: Keeper + Drop + Send,
    D: Door + Drop + Send,
    C: Clock + Drop + Send,
    G: Gate + Sync,
>(
    rt: &R,
    alloc: Global,
    study_name: &str,
    addr: &str,
    connections: u32,
    files: &mut F,
    out: &mut O,
    keepers: Vec<K>,
    door: D,
    clock: C,
    gate: &G,
) -> (Status, Vec<K>, D)
where
    D::L: Send,
    requires keepers { vec_len keepers ≡ 64 }
    requires few { connections ≤ 65535 }
    ensures carried { CarriesOut (λ held. as_serves (right_serving study_name.now connections held))
        (seen F.held F.sound F.load_faults F.save_faults files.old)
        (seen F.held F.sound F.load_faults F.save_faults files.new)
        (sink_seen O.told O.faults O.sure out.old) (sink_seen O.told O.faults O.sure out.new)
        (keepers_seen K.Keeper keepers.items) (keepers_seen K.Keeper result.1.items)
        (door_seen D.closed D.faults D.link_faults D.accepts D.sound D.awaited door)
        (door_seen D.closed D.faults D.link_faults D.accepts D.sound D.awaited result.2) result.0 }
    ensures no_usage { result.0 ≡ Status.Usage → ⊥ }
    ensures places { vec_len result.1 ≡ 64 }
    ensures uncalled { IsUncalled result.0 → result.1 ≡ keepers }
{
    match load_study(alloc, files, study_name) {
        Ok(study) => return serve_study(
            rt,
            alloc,
            &study,
            addr,
            connections,
            out,
            keepers,
            door,
            clock,
            gate,
        ),
        Err(refusal) => return (refusal.into(), keepers, door),
    }
}
