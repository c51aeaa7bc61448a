//! The top call.

ghost use Rattle.std.specs.Prelude.{◌≡◌, ◌↔◌, ℕ, List, map, string_bytes, vec_len, None, Some, IsTrue, ◌⊎◌};
ghost use Rattle.mls_base.specs.Told.{Names, Rose};
ghost use Rattle.mls_text.specs.Writing.{sink_seen};
ghost use Rattle.mls_ckpt.specs.declared.faults.CkptWhy.{CkptWhy};
ghost use Rattle.mls_book.specs.Keepers.{AtRank, keepers_seen};
ghost use Rattle.mls_load.specs.Refusals.{seen};
ghost use Rattle.mls_wire.specs.Doors.{Closed};
ghost use Rattle.mls_live.specs.Words.{FewServed, words_of};
ghost use Rattle.mls_served.specs.Doors.{door_seen};
ghost use Rattle.mls_desk.specs.Ends.{HasFaulted, HasGivenBad};
ghost use Rattle.mls_live.specs.Ideal.{AcceptsNothing, RefusesExactly, WritesNothing, ideal, right_command};
ghost use Rattle.mls_live.specs.Answers.{AllWelcome, DidNotRise, IsDoneOrMemory, IsUncalled, SaysServer};
ghost use Rattle.mls_live.specs.Tasks.{AllTell, CarriesOut, HasEnoughToRun, HasLinks, IsAskedTask, IsQuiet, IsRunning, IsSending, IsServing, NoneRose, TellsRight};

use crate::group::run_group;
use crate::running::run_run;
use crate::serving::run_serve;
use crate::words::{Words, read_words};
use mls_base::clock::Clock;
use mls_base::gate::Gate;
use mls_base::outside::{Files, Keeper, Sink};
use mls_load::WordsFault;
use mls_result::{Status, Unbuilt};
use mls_wire::Door;
use std::alloc::Global;
use std::sync::Wait;
use std::thread::Threads;

/// Carries out a command.
fn carry_out<
    R: Threads + Wait + Sync,
    F: Files,
    O: Sink,
    K: Keeper + Drop + Send,
    D: Door + Drop + Send,
    C: Clock + Drop + Send,
    G: Gate + Sync,
>(
    rt: &R,
    alloc: Global,
    command: Words,
    files: &mut F,
    out: &mut O,
    keepers: Vec<K>,
    door: D,
    clock: C,
    gate: &G,
) -> (Status, Vec<K>, D)
where
    D::L: Send,
    requires keepers { vec_len keepers ≡ 64 }
    requires few { FewServed command }
    ensures carried { CarriesOut (right_command command)
        (seen F.held F.sound F.load_faults F.save_faults files.old)
        (seen F.held F.sound F.load_faults F.save_faults files.new)
        (sink_seen O.told O.faults O.sure out.old) (sink_seen O.told O.faults O.sure out.new)
        (keepers_seen K.Keeper keepers.items) (keepers_seen K.Keeper result.1.items)
        (door_seen D.closed D.faults D.link_faults D.accepts D.sound D.awaited door)
        (door_seen D.closed D.faults D.link_faults D.accepts D.sound D.awaited result.2) result.0 }
    ensures no_usage { result.0 ≡ Status.Usage → ⊥ }
    ensures places { vec_len result.1 ≡ 64 }
    ensures uncalled { IsUncalled result.0 → result.1 ≡ keepers }
    ensures unwritten { WritesNothing (Some command) → (out.new ≡ out.old) × (result.1 ≡ keepers) }
    ensures accepts { AcceptsNothing (Some command) → D.accepts result.2 ≡ D.accepts door }
{
    match command {
        Words::Group {
            study,
            group,
            life,
            addr,
        } => {
            let mut door = door;
            let status = run_group(
                alloc,
                study.as_str(),
                group,
                life,
                addr.as_str(),
                files,
                &mut door,
            );
            return (status, keepers, door);
        }
        Words::Run {
            study,
            tape,
            workers,
            schedule,
        } => {
            let (status, keepers) = run_run(
                rt,
                alloc,
                study.as_str(),
                tape.as_str(),
                workers,
                schedule.as_str(),
                files,
                out,
                keepers,
                gate,
            );
            return (status, keepers, door);
        }
        Words::Serve { study, addr, lanes } => return run_serve(
            rt,
            alloc,
            study.as_str(),
            addr.as_str(),
            lanes,
            files,
            out,
            keepers,
            door,
            clock,
            gate,
        ),
        Words::Poll { .. } => {
            let part = Unbuilt::Command;
            return (Status::NotBuilt { part }, keepers, door);
        }
    }
}

/// Carries out the command that the words say.
fn run<
    R: Threads + Wait + Sync,
    F: Files,
    O: Sink,
    K: Keeper + Drop + Send,
    D: Door + Drop + Send,
    C: Clock + Drop + Send,
    G: Gate + Sync,
>(
    rt: &R,
    alloc: Global,
    words: &[String],
    files: &mut F,
    out: &mut O,
    keepers: Vec<K>,
    door: D,
    clock: C,
    gate: &G,
) -> (Status, Vec<K>, D)
where
    D::L: Send,
    requires { vec_len keepers ≡ 64 }
    ensures carried { CarriesOut (λ held. ideal held (map string_bytes words.now))
        (seen F.held F.sound F.load_faults F.save_faults files.old)
        (seen F.held F.sound F.load_faults F.save_faults files.new)
        (sink_seen O.told O.faults O.sure out.old) (sink_seen O.told O.faults O.sure out.new)
        (keepers_seen K.Keeper keepers.items) (keepers_seen K.Keeper result.1.items)
        (door_seen D.closed D.faults D.link_faults D.accepts D.sound D.awaited door)
        (door_seen D.closed D.faults D.link_faults D.accepts D.sound D.awaited result.2) result.0 }
    ensures usage { (result.0 ≡ Status.Usage) ↔ (words_of (map string_bytes words.now) ≡ None) }
    ensures places { vec_len result.1 ≡ 64 }
    ensures uncalled { IsUncalled result.0 → result.1 ≡ keepers }
    ensures unwritten { WritesNothing (words_of (map string_bytes words.now)) →
        (out.new ≡ out.old) × (result.1 ≡ keepers) }
    ensures accepts { AcceptsNothing (words_of (map string_bytes words.now)) →
        D.accepts result.2 ≡ D.accepts door }
{
    match read_words(alloc, words) {
        Ok(command) => return carry_out(rt, alloc, command, files, out, keepers, door, clock, gate),
        Err(WordsFault::Usage) => return (Status::Usage, keepers, door),
        Err(WordsFault::Memory) => return (Status::Memory, keepers, door),
    }
}

/// The program `melissad` without its outside: carries out the command that the words say (those after the program's
/// name) over these files, this sink, these 64 keepers and this door, and says how it went.
///
/// `run` runs a tape's lanes on workers that pass the gate before each of their offers, writes the result and saves the
/// schedule that was run: where the files tell and the answer is `Done` they then hold the text of a complete schedule,
/// of which the result text was written. `group` sends one life of one group: where the files and the door tell and the
/// answer is `Done`, the door has closed one link for each pair of a rank and a client, in order, to each of which
/// exactly the pair's session was written. `serve` serves connections, and writes what it was sent: the result text and
/// then the watch text. `poll` is not built yet.
pub fn melissad<
    R: Threads + Wait + Sync,
    F: Files,
    O: Sink,
    K: Keeper + Drop + Send,
    D: Door + Drop + Send,
    C: Clock + Drop + Send,
    G: Gate + Sync,
>(
    rt: &R,
    alloc: Global,
    words: &[String],
    files: &mut F,
    out: &mut O,
    keepers: Vec<K>,
    door: D,
    clock: C,
    gate: &G,
) -> (Status, Vec<K>, D)
where
    D::L: Send,
    requires { vec_len keepers ≡ 64 }

    // What is right was run, sent or served, or the refusal that is right came. Of a run there is a complete schedule, which the
    // files then hold under its name: the text is the result text of it where each keeper tells what it holds, or no
    // crash of its rank's history stands behind a save; whatever they tell it is the text of some cores; each rank's
    // keeper that tells holds the last save of its history, or what it held, and the others are as before. Where the
    // order of the tape doesn't matter the text has the step and cell lines of the plain schedule. After a failed write
    // a front of such a text went out, or all of it and the save failed. Of a sending the closed links say how far it
    // went. Of a server the door accepted as many links as it was to serve; the text is the result text of some cores and
    // lane lines, and then the watch text of some events, and each rank's keeper that tells holds the checkpoint of its
    // core.
    ensures right { (held : Names) → F.held files.old ≡ Some held →
        TellsRight (ideal held (map string_bytes words.now))
        (seen F.held F.sound F.load_faults F.save_faults files.old)
        (seen F.held F.sound F.load_faults F.save_faults files.new)
        (sink_seen O.told O.faults O.sure out.old) (sink_seen O.told O.faults O.sure out.new)
        (keepers_seen K.Keeper keepers.items) (keepers_seen K.Keeper result.1.items)
        (door_seen D.closed D.faults D.link_faults D.accepts D.sound D.awaited door)
        (door_seen D.closed D.faults D.link_faults D.accepts D.sound D.awaited result.2) result.0 }

    // Where the words are no command, told files or not.
    ensures usage { (result.0 ≡ Status.Usage) ↔ (words_of (map string_bytes words.now) ≡ None) }

    // Each refusal comes exactly where it is the first, but that memory may be wanting or a read may fail before.
    ensures refused { RefusesExactly (F.held files.old) (map string_bytes words.now) result.0 }

    // `Refused` and `Peer` come exactly where the server said so on the last link that was closed, but that no command to
    // serve answers them.
    ensures server { (held : Names) → F.held files.old ≡ Some held →
        (IsServing (ideal held (map string_bytes words.now)) → ⊥) → (before after : List Closed) →
        D.closed door ≡ Some before → D.closed result.2 ≡ Some after → SaysServer before after result.0 }

    // Over sound files that tell, sound keepers that tell, a sink that takes the text for sure, and a door that hands
    // out enough links for sure, the answer is the refusal that the words and the files ask for; or of a run that it was
    // done; or of a sending that all was sent, or that the server didn't welcome it; or memory is wanting. Over such a
    // door and keepers a server answers that it was done, that memory is wanting, or that a write failed.
    ensures sound { (held : Names) → F.held files.old ≡ Some held → IsTrue (F.sound files.old) →
        HasLinks (ideal held (map string_bytes words.now))
        (door_seen D.closed D.faults D.link_faults D.accepts D.sound D.awaited door) →
        HasEnoughToRun (ideal held (map string_bytes words.now))
        (sink_seen O.told O.faults O.sure out.old) (keepers_seen K.Keeper keepers.items) →
        IsAskedTask (ideal held (map string_bytes words.now)) result.0 }

    // The causes of faults of the outside.
    ensures read_fault { result.0 ≡ Status.ReadFault → Rose (F.load_faults files.old) (F.load_faults files.new) }
    ensures write_fault { result.0 ≡ Status.WriteFault →
        Rose (O.faults out.old) (O.faults out.new) ⊎ Rose (F.save_faults files.old) (F.save_faults files.new) }
    ensures keeper_fault { (rank : ℕ) → result.0 ≡ Status.KeeperFault rank →
        AtRank rank (keepers_seen K.Keeper keepers.items) (keepers_seen K.Keeper result.1.items) HasFaulted }
    ensures checkpoint_bad { (rank at : ℕ) (why : CkptWhy) → result.0 ≡ Status.CheckpointBad rank at why →
        AtRank rank (keepers_seen K.Keeper keepers.items) (keepers_seen K.Keeper result.1.items) HasGivenBad }
    ensures door_fault { result.0 ≡ Status.DoorFault → Rose (D.faults door) (D.faults result.2) }
    ensures link_fault { result.0 ≡ Status.LinkFault → Rose (D.link_faults door) (D.link_faults result.2) }

    // Where there is something to send, no count rose and the server welcomed each link, all was sent or memory is
    // wanting.
    ensures complete { (held : Names) → F.held files.old ≡ Some held →
        IsSending (ideal held (map string_bytes words.now)) →
        DidNotRise (F.load_faults files.old) (F.load_faults files.new) →
        DidNotRise (D.faults door) (D.faults result.2) →
        DidNotRise (D.link_faults door) (D.link_faults result.2) →
        (before : List Closed) → D.closed door ≡ Some before →
        ((after : List Closed) → D.closed result.2 ≡ Some after → AllWelcome before after) →
        IsDoneOrMemory result.0 }

    // Where there is something to run, no count rose and each keeper tells what it holds, it was done or memory is
    // wanting.
    ensures complete_run { (held : Names) → F.held files.old ≡ Some held →
        IsRunning (ideal held (map string_bytes words.now)) →
        DidNotRise (F.load_faults files.old) (F.load_faults files.new) →
        DidNotRise (F.save_faults files.old) (F.save_faults files.new) →
        DidNotRise (O.faults out.old) (O.faults out.new) →
        NoneRose (keepers_seen K.Keeper keepers.items) (keepers_seen K.Keeper result.1.items) →
        AllTell (keepers_seen K.Keeper keepers.items) →
        IsDoneOrMemory result.0 }

    // Where there is something to serve, no count rose and each keeper tells what it holds, it was done or memory is
    // wanting.
    ensures complete_serve { (held : Names) → F.held files.old ≡ Some held →
        IsServing (ideal held (map string_bytes words.now)) →
        DidNotRise (F.load_faults files.old) (F.load_faults files.new) →
        DidNotRise (D.faults door) (D.faults result.2) →
        DidNotRise (O.faults out.old) (O.faults out.new) →
        NoneRose (keepers_seen K.Keeper keepers.items) (keepers_seen K.Keeper result.1.items) →
        AllTell (keepers_seen K.Keeper keepers.items) →
        IsDoneOrMemory result.0 }

    // No command but `run` and `serve` writes or calls a keeper, and these write nothing before these answers. There are
    // as many keepers as before; after a refusal each is as it was. No command but `serve` accepts a link, and no save
    // fails but where a write fault is answered.
    ensures unwritten { WritesNothing (words_of (map string_bytes words.now)) →
        (out.new ≡ out.old) × (result.1 ≡ keepers) }
    ensures quiet { IsQuiet result.0 → O.told out.new ≡ O.told out.old }
    ensures places { vec_len result.1 ≡ 64 }
    ensures uncalled { IsUncalled result.0 → result.1 ≡ keepers }
    ensures accepts { AcceptsNothing (words_of (map string_bytes words.now)) →
        D.accepts result.2 ≡ D.accepts door }
    ensures saves { (result.0 ≡ Status.WriteFault → ⊥) → F.save_faults files.new ≡ F.save_faults files.old }
{
    run(rt, alloc, words, files, out, keepers, door, clock, gate)
}
