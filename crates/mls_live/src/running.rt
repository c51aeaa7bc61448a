//! The command `run`.

ghost use Rattle.std.specs.Prelude.{◌≡◌, ℕ, ◌+◌, ◌≤◌, List, Some, IfSome, IfOk, vec_len, vec_capacity};
ghost use Rattle.mls_model.specs.Numbers.{element};
ghost use Rattle.mls_text.specs.Writing.{sink_seen};
ghost use Rattle.mls_book.specs.Books.{IsRecord};
ghost use Rattle.mls_book.specs.Keepers.{keepers_seen};
ghost use Rattle.mls_load.specs.Refusals.{Loads, seen};
ghost use Rattle.mls_pool.specs.Pools.{IsReported, TapeBook};
ghost use Rattle.mls_live.specs.Running.{EndsPool, Ran, ended_status, pool_status, right_running, running_of};
ghost use Rattle.mls_live.specs.Ending.{AreOnTape};
ghost use Rattle.mls_live.specs.Answers.{IsUncalled};
ghost use Rattle.mls_served.specs.Doors.{DoorState};
ghost use Rattle.mls_live.specs.Tasks.{CarriesOut, as_runs};

use crate::ending::{end_books, keepers_of};
use mls_base::gate::Gate;
use mls_base::outside::{Files, Keeper, Sink};
use mls_book::{Book, BookFault};
use mls_field::field::Field;
use mls_launch::OutFault;
use mls_load::{Refusal, load_study, load_tape};
use mls_orders::completed_keys::no_rank_crashes;
use mls_orders::result_lines::result_text_has_the_plain_lines;
use mls_pool::{PoolFault, Pooled, drain, run_lanes};
use mls_result::Status;
use mls_study::Study;
use mls_tape::Tape;
use std::alloc::Global;
use std::sync::Wait;
use std::thread::Threads;

/// What is answered after a fault of the workers or of the drain. The book's record has its cause.
fn fault_status<'t, K: Keeper + Drop>(
    books: &[Book<&'t Tape, Field, K>],
    fault: PoolFault,
) -> Status
    requires { IsReported books.now fault }
    ensures status { result ≡ pool_status fault }
    ensures cause { (book : TapeBook K) → element books.now fault.rank ≡ Some book →
        IsRecord book.fault (K.faults book.keeper) (K.held book.keeper) }
{
    let rank = fault.rank;
    books[rank as usize].valid();
    match fault.fault {
        BookFault::KeeperFault => Status::KeeperFault { rank },
        BookFault::CheckpointBad { at, why } => Status::CheckpointBad { rank, at, why },
        BookFault::Memory => Status::Memory,
    }
}

/// What is answered after the end of a run.
fn ended_status(answer: Result<(), OutFault>) -> Status
    ensures { result ≡ ended_status answer }
{
    match answer {
        Ok(()) => Status::Done,
        Err(OutFault::WriteFault) => Status::WriteFault,
        Err(OutFault::Memory) => Status::Memory,
    }
}

/// The number of workers of a run: at least one, at most 64.
fn worker_count(workers: u32) -> u32
    ensures some { 1 ≤ result }
    ensures few { result ≤ 64 }
    ensures same { 1 ≤ workers → workers ≤ 64 → result ≡ workers }
{
    if workers < 1 {
        return 1;
    }
    if 64 < workers {
        return 64;
    }
    workers
}

/// What is left of a run without a fault: its end.
fn end_pool<'t, F: Files, O: Sink, K: Keeper + Drop>(
    alloc: Global,
    study: &Study,
    tape: &'t Tape,
    name: &str,
    pooled: Pooled<'t, K>,
    files: &mut F,
    out: &mut O,
) -> (Status, Vec<K>)
    requires books { AreOnTape tape.now.lanes study.now.sizes pooled.books.items }
    requires room { vec_len pooled.books + vec_len pooled.spare ≤ vec_capacity pooled.spare }
    requires reported { IfSome pooled.fault (IsReported pooled.books.items) }
    ensures { EndsPool K.Keeper study.now tape.now.lanes name.now pooled.entry.books.items pooled.entry.spare.items
        pooled.entry.fault result.1.items
        (seen F.held F.sound F.load_faults F.save_faults files.old)
        (seen F.held F.sound F.load_faults F.save_faults files.new)
        (sink_seen O.told O.faults O.sure out.old) (sink_seen O.told O.faults O.sure out.new) result.0 }
{
    let Pooled {
        books,
        spare,
        fault,
    } = pooled;
    match fault {
        Some(fault) => {
            let status = fault_status(books.as_slice(), fault);
            return (status, keepers_of(books, spare));
        }
        None => {
            let (answer, keepers) = end_books(alloc, study, tape, name, books, spare, files, out);
            return (ended_status(answer), keepers);
        }
    }
}

/// Runs a tape on workers, takes what they left, writes the result and saves the schedule that was run.
pub(crate) fn run_tape<
    R: Threads + Wait + Sync,
    F: Files,
    O: Sink,
    K: Keeper + Drop + Send,
    G: Gate + Sync,
>(
    rt: &R,
    alloc: Global,
    study: &Study,
    tape: &Tape,
    workers: u32,
    name: &str,
    files: &mut F,
    out: &mut O,
    keepers: Vec<K>,
    gate: &G,
) -> (Status, Vec<K>)
    requires keepers { vec_len keepers ≡ 64 }
    requires ranks { tape.now.ranks ≡ study.now.sizes.ranks }
    ensures ran { Ran (running_of study.now tape.now.lanes name.now)
        (seen F.held F.sound F.load_faults F.save_faults files.old)
        (seen F.held F.sound F.load_faults F.save_faults files.new)
        (sink_seen O.told O.faults O.sure out.old) (sink_seen O.told O.faults O.sure out.new)
        (keepers_seen K.Keeper keepers.items) (keepers_seen K.Keeper result.1.items) result.0 }
    ensures places { vec_len result.1 ≡ 64 }
    ensures called { IsUncalled result.0 → ⊥ }
{
    no_rank_crashes();
    result_text_has_the_plain_lines();
    study.valid();
    let workers = worker_count(workers);
    let pooled = match run_lanes(rt, alloc, study, tape, workers, keepers, gate) {
        Ok(pooled) => pooled,
        Err(unstarted) => return (Status::Memory, unstarted.keepers),
    };
    let pooled = drain(alloc, pooled);
    end_pool(alloc, study, tape, name, pooled, files, out)
}

/// What a run begins with.
#[derive(Drop)]
struct RunInputs {
    study: Study,
    tape: Tape,
}

/// The study and the tape of these names.
fn load_run<F: Files>(
    alloc: Global,
    files: &mut F,
    study_name: &str,
    tape_name: &str,
) -> Result<RunInputs, Refusal>
    ensures loads { (name : List ℕ) → Loads (λ (inputs : RunInputs). running_of inputs.study inputs.tape.lanes name)
        (right_running study_name.now tape_name.now name)
        (seen F.held F.sound F.load_faults F.save_faults files.old)
        (seen F.held F.sound F.load_faults F.save_faults files.new) result }
    ensures ranks { IfOk result (λ inputs. inputs.tape.ranks ≡ inputs.study.sizes.ranks) }
{
    let study = load_study(alloc, files, study_name)?;
    let tape = load_tape(alloc, files, &study, tape_name)?;
    Ok(RunInputs { study, tape })
}

/// Runs the tape of a name for the study of a name, and saves the schedule under a third.
pub(crate) fn run_run<
    R: Threads + Wait + Sync,
    F: Files,
    O: Sink,
    K: Keeper + Drop + Send,
    G: Gate + Sync,
>(
    rt: &R,
    alloc: Global,
    study_name: &str,
    tape_name: &str,
    workers: u32,
    name: &str,
    files: &mut F,
    out: &mut O,
    keepers: Vec<K>,
    gate: &G,
) -> (Status, Vec<K>)
    requires { vec_len keepers ≡ 64 }
    ensures carried { (door : DoorState) → CarriesOut
        (λ held. as_runs (right_running study_name.now tape_name.now name.now held))
        (seen F.held F.sound F.load_faults F.save_faults files.old)
        (seen F.held F.sound F.load_faults F.save_faults files.new)
        (sink_seen O.told O.faults O.sure out.old) (sink_seen O.told O.faults O.sure out.new)
        (keepers_seen K.Keeper keepers.items) (keepers_seen K.Keeper result.1.items) door door result.0 }
    ensures no_usage { result.0 ≡ Status.Usage → ⊥ }
    ensures places { vec_len result.1 ≡ 64 }
    ensures uncalled { IsUncalled result.0 → result.1 ≡ keepers }
{
    match load_run(alloc, files, study_name, tape_name) {
        Ok(inputs) => return run_tape(
            rt,
            alloc,
            &inputs.study,
            &inputs.tape,
            workers,
            name,
            files,
            out,
            keepers,
            gate,
        ),
        Err(refusal) => return (refusal.into(), keepers),
    }
}
