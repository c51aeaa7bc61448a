//! What the tests share: studies, words, and a run over files and a sink in memory.

ghost use Rattle.std.specs.Prelude.{◌≡◌, vec_len, IfOk};

use mls_base::clock::FixedClock;
use mls_base::gate::Gate;
use mls_base::memory::{MemFiles, MemKeeper, MemSink};
use mls_base::outside::Keeper;
use mls_live::melissad;
use mls_result::Status;
use mls_wire::MemDoor;
use std::alloc::{AllocError, Global};
use std::sync::Wait;
use std::thread::Threads;

// Two cells and two ranks, one step, two groups, one parameter.
pub(crate) const TWO_RANKS: &[u8] =
    b"cells = 2\nsteps = 1\ngroups = 2\nranks = 2\nstatistics = [\"power\"]\n[[parameters]]\nname = \"x\"\nlow = 0\nhigh = 9\n";

/// What a run left: its status, the files, and what the sink holds.
#[derive(Drop)]
pub(crate) struct Left {
    pub(crate) status: Status,
    pub(crate) files: MemFiles,
    pub(crate) text: Vec<u8>,
}

/// A keeper in memory for each rank there may be. The calls of the first with these numbers fail.
pub(crate) fn no_checkpoints(alloc: Global, fails: Vec<u64>) -> Result<Vec<MemKeeper>, AllocError>
    ensures { IfOk result (λ keepers. vec_len keepers ≡ 64) }
{
    let mut keepers = Vec::new(alloc);
    keepers.push(MemKeeper::new(alloc, fails))?;
    for _ in 0..63_u32 {
        keepers.push(MemKeeper::new(alloc, Vec::new(alloc)))?;
    }
    Ok(keepers)
}

/// Files in memory that hold the study and the tape, of whose calls these fail.
pub(crate) fn files_of(
    alloc: Global,
    study: &[u8],
    tape: &[u8],
    fails: Vec<u64>,
) -> Result<MemFiles, AllocError> {
    let mut files = MemFiles::new(alloc, fails);
    if files.set("study", study).is_err() || files.set("tape", tape).is_err() {
        return Err(AllocError);
    }
    Ok(files)
}

/// A run of the study and the tape by so many workers.
pub(crate) fn run<R: Threads + Wait + Sync, K: Keeper + Drop + Send, G: Gate + Sync>(
    rt: &R,
    alloc: Global,
    workers: &str,
    mut files: MemFiles,
    keepers: Vec<K>,
    gate: &G,
) -> Result<Left, AllocError>
    requires { vec_len keepers ≡ 64 }
{
    let mut words = Vec::new(alloc);
    for word in ["run", "study", "tape", workers, "schedule"] {
        words.push(String::from_str(alloc, word)?)?;
    }
    let Ok(mut sink) = MemSink::new(alloc, 1000, Vec::new(alloc)) else {
        return Err(AllocError);
    };
    let door = MemDoor::new(alloc, Vec::new(alloc), Vec::new(alloc));
    let (status, _, _) = melissad(
        rt,
        alloc,
        words.as_slice(),
        &mut files,
        &mut sink,
        keepers,
        door,
        FixedClock::new(Vec::new(alloc)),
        gate,
    );
    let text = Vec::from_slice(alloc, sink.bytes())?;
    Ok(Left {
        status,
        files,
        text,
    })
}
