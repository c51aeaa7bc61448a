//! What no clause says: a fold over files, a sink and keepers in memory and over a writer, and calls that fail.

ghost use Rattle.std.specs.Prelude.{◌≡◌, vec_len, IfOk};

use mls_base::memory::{MemFiles, MemKeeper, MemSink};
use mls_base::outside::Sink;
use mls_cli::{BufferedSink, melissa, run_over};
use mls_result::Status;
use std::alloc::{AllocError, Global};

// One cell, one step, two groups, one parameter.
const STUDY: &[u8] =
    b"cells = 1\nsteps = 1\ngroups = 2\nstatistics = [\"power\"]\n[[parameters]]\nname = \"x\"\nlow = 0\nhigh = 9\n";

// Group 0 with samples 1, 3, 3 and group 1 with samples 5, 1, 1, in the only lane.
const TAPE: &[u8] = &[
    77, 84, 65, 80, 0, 1, 0, 0, 0, 1, 0, 0, 0, 0, 0, 0, 70, 0, 0, 0, 31, 1, 0, 0, 0, 1, 0, 0, 0, 0,
    0, 0, 0, 0, 0, 0, 0, 3, 0, 0, 0, 0, 0, 0, 0, 1, 0, 1, 0, 3, 0, 3, 0, 0, 0, 31, 1, 0, 0, 0, 1,
    0, 0, 0, 1, 0, 0, 0, 0, 0, 0, 0, 3, 0, 0, 0, 0, 0, 0, 0, 1, 0, 5, 0, 1, 0, 1,
];

// The same of two cells and two clients, a lane of each with its piece of group 0. The second is taken first.
const SHARED_STUDY: &[u8] =
    b"cells = 2\nsteps = 1\ngroups = 2\nclients = 2\nstatistics = [\"power\"]\n[[parameters]]\nname = \"x\"\nlow = 0\nhigh = 9\n";

const SHARED_TAPE: &[u8] = &[
    77, 84, 65, 80, 0, 1, 0, 0, 0, 2, 0, 0, 0, 0, 0, 0, 35, 0, 0, 0, 31, 1, 0, 0, 0, 1, 0, 0, 0, 0,
    0, 0, 0, 0, 0, 0, 0, 3, 0, 0, 0, 0, 0, 0, 0, 1, 0, 1, 0, 3, 0, 3, 0, 0, 0, 0, 0, 0, 35, 0, 0,
    0, 31, 1, 0, 0, 0, 1, 0, 0, 0, 0, 0, 0, 0, 0, 0, 1, 0, 3, 0, 0, 0, 1, 0, 0, 0, 1, 0, 5, 0, 1,
    0, 1,
];

const SCHEDULE: &[u8] = b"0 1\n0 0\n";

const TEXT: &[u8] =
    b"melissa-result 1\nstudy cells 1 steps 1 groups 2 parameters 1 ranks 1 clients 1\nrank 0 accepted 2 kept 0 replay 0 stale 0 repeated 0 foreign 0 0 0 0 0 0\nlane 0 rank 0 client events 2 clean\nstep 0 cell 0 groups 2\npower 10 36 154 708\nvariance 44/12\nthird 144/64\nend\n";

/// A keeper in memory for each rank there may be, none of which holds anything.
pub(crate) fn no_checkpoints(alloc: Global) -> Result<Vec<MemKeeper>, AllocError>
    ensures { IfOk result (λ keepers. vec_len keepers ≡ 64) }
{
    let mut keepers = Vec::new(alloc);
    for _ in 0..64_u32 {
        keepers.push(MemKeeper::new(alloc, Vec::new(alloc)))?;
    }
    Ok(keepers)
}

/// Files in memory that hold the study and the tape, of whose calls these fail.
fn two_groups(alloc: Global, fails: Vec<u64>) -> Result<MemFiles, AllocError> {
    let mut files = MemFiles::new(alloc, fails);
    if files.set("study", STUDY).is_err() || files.set("tape", TAPE).is_err() {
        return Err(AllocError);
    }
    Ok(files)
}

/// Files in memory that hold the study and tape of two clients and a schedule, of whose calls these fail.
fn two_clients(alloc: Global, fails: Vec<u64>) -> Result<MemFiles, AllocError> {
    let mut files = MemFiles::new(alloc, fails);
    if files.set("study", SHARED_STUDY).is_err()
        || files.set("tape", SHARED_TAPE).is_err()
        || files.set("schedule", SCHEDULE).is_err()
    {
        return Err(AllocError);
    }
    Ok(files)
}

/// The words of a fold of the study and the tape.
fn fold_words(alloc: Global) -> Result<Vec<String>, AllocError> {
    let mut words = Vec::new(alloc);
    for word in ["fold", "study", "tape"] {
        words.push(String::from_str(alloc, word)?)?;
    }
    Ok(words)
}

/// The number of the words' status over these files and a sink with so much room, and what the sink holds.
fn answer(
    alloc: Global,
    words: &[String],
    mut files: MemFiles,
    room: u64,
) -> Result<(u8, Vec<u8>), AllocError> {
    let Ok(mut sink) = MemSink::new(alloc, room, Vec::new(alloc)) else {
        return Err(AllocError);
    };
    let keepers = no_checkpoints(alloc)?;
    let (status, _) = melissa(alloc, words, &mut files, &mut sink, keepers);
    Ok((status.number(), Vec::from_slice(alloc, sink.bytes())?))
}

/// The same of a fold of two groups, where these calls of the files fail.
fn fold_of(alloc: Global, fails: Vec<u64>, room: u64) -> Result<(u8, Vec<u8>), AllocError> {
    let words = fold_words(alloc)?;
    answer(alloc, words.as_slice(), two_groups(alloc, fails)?, room)
}

/// The same of a fold of two clients under the schedule.
fn scheduled_fold_of(
    alloc: Global,
    fails: Vec<u64>,
    room: u64,
) -> Result<(u8, Vec<u8>), AllocError> {
    let mut words = fold_words(alloc)?;
    words.push(String::from_str(alloc, "schedule")?)?;
    answer(alloc, words.as_slice(), two_clients(alloc, fails)?, room)
}

#[test]
fn every_small_sink_is_full(rt: HostRuntime) {
    let alloc = rt.alloc();
    for room in 0..=TEXT.len() {
        let (number, bytes) = fold_of(alloc, Vec::new(alloc), room as u64).expect(&rt, "memory");
        let answer = if room < TEXT.len() { 6 } else { 0 };
        let front = TEXT.get(..room).unwrap_or(&[]);
        assert!(rt; number == answer && bytes.as_slice() == front, "{room}");
    }
}

#[test]
fn failed_loads_are_told(rt: HostRuntime) {
    let alloc = rt.alloc();
    for call in 0..2_u64 {
        let fails = vec![in alloc; call].expect(&rt, "memory");
        let (number, bytes) = fold_of(alloc, fails, 1000).expect(&rt, "memory");
        assert!(rt; number == 5 && bytes.is_empty(), "{call}");
    }
}

#[test]
fn a_failed_load_of_the_schedule_is_told(rt: HostRuntime) {
    let alloc = rt.alloc();
    let (number, bytes) = scheduled_fold_of(alloc, Vec::new(alloc), 1000).expect(&rt, "memory");
    assert!(rt; number == 0 && !bytes.is_empty());
    let fails = vec![in alloc; 2u64].expect(&rt, "memory");
    let (number, bytes) = scheduled_fold_of(alloc, fails, 1000).expect(&rt, "memory");
    assert!(rt; number == 5 && bytes.is_empty());
}

#[test]
fn a_writer_holds_the_text_after_done(rt: HostRuntime) {
    let alloc = rt.alloc();
    let mut files = two_groups(alloc, Vec::new(alloc)).expect(&rt, "memory");
    let words = fold_words(alloc).expect(&rt, "memory");
    let keepers = no_checkpoints(alloc).expect(&rt, "memory");
    let mut out = BufferedSink::new(alloc, Vec::new(alloc)).expect(&rt, "memory");
    let status = run_over(alloc, words.as_slice(), &mut files, &mut out, keepers);
    assert!(rt; status.number() == 0 && out.writer().as_slice() == TEXT);
}

#[test]
fn more_than_is_gathered_is_written(rt: HostRuntime) {
    let alloc = rt.alloc();
    let mut sink = BufferedSink::new(alloc, Vec::new(alloc)).expect(&rt, "memory");
    for _ in 0..9_u32 {
        assert_eq!(rt; sink.write([7; 8000].as_slice()), Ok(8000));
    }
    assert!(rt; !sink.writer().is_empty());
    assert_eq!(rt; sink.finish(), Ok(()));
    assert!(rt; sink.writer().len() == 72_000);
}

#[test]
fn faults_of_the_outside_have_texts(rt: HostRuntime) {
    let alloc = rt.alloc();
    let printed = format!(in alloc; "{}, {}", Status::WriteFault, Status::Memory).expect(
        &rt, "memory",
    );
    assert!(rt; printed.as_str() == "cannot write, out of memory");
}
