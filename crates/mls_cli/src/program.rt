//! The program `melissa` over the files of the system and standard output.

ghost use Rattle.std.specs.Prelude.{◌≡◌, ℕ, List, ◌++◌, map, string_bytes, vec_len, Some, IfOk, IsOkAnd};
ghost use Rattle.std.specs.Io.Buffered.{writer_inner};
ghost use Rattle.mls_base.specs.Told.{Names};
ghost use Rattle.mls_book.specs.Keepers.{keepers_seen};
ghost use Rattle.mls_cli.specs.Ideal.{ideal, task_of};
ghost use Rattle.mls_cli.specs.Answers.{IsTextSure};

use crate::commands::melissa;
use crate::output::{BufferedSink, SteadyWriter};
use mls_base::outside::{Files, Keeper, Sink};
use mls_base::system::StdFiles;
use mls_result::Status;
use mls_slot::{FileDisk, SlotKeeper};
use std::alloc::{AllocError, Global};
use std::process::ExitCode;
use std::{env, io};

/// The checkpoint store of each rank there may be, over the files `checkpoints/rank-R.0` and `checkpoints/rank-R.1`.
fn checkpoint_stores<'a>(
    rt: &'a HostRuntime,
    alloc: Global,
) -> Result<Vec<SlotKeeper<FileDisk<&'a HostRuntime>>>, AllocError>
    ensures { IfOk result (λ keepers. vec_len keepers ≡ 64) }
{
    let mut keepers = Vec::with_capacity(alloc, 64)?;
    for rank in 0..64_u32 {
        keepers.push(SlotKeeper::new(FileDisk::new(rt, rank)))?;
    }
    Ok(keepers)
}

/// The words after the program's name.
fn words(rt: &HostRuntime, alloc: Global) -> Result<Vec<String>, Status> {
    match env::args(rt) {
        Ok(args) => match args.skip(1).collect(alloc) {
            Ok(words) => Ok(words),
            Err(_) => Err(Status::Memory),
        },
        Err(_) => Err(Status::Usage),
    }
}

/// Carries out the command of the words over a writer. `Done` is answered where the writer was handed all that was
/// written: the right text, of a fold where each keeper tells what it holds or no crash of its rank stands behind a save,
/// of an export where each keeper tells what it holds. Of a resume it says nothing of the text.
pub fn run_over<F: Files, W: SteadyWriter + Drop, K: Keeper + Drop>(
    alloc: Global,
    words: &[String],
    files: &mut F,
    out: &mut BufferedSink<W>,
    keepers: Vec<K>,
) -> Status
    requires { vec_len keepers ≡ 64 }
    ensures done { (held : Names) → F.held files.old ≡ Some held →
        IsTextSure (task_of held (map string_bytes words.now)) (keepers_seen K.Keeper keepers.items) →
        (before : List ℕ) → ⟦<BufferedSink<W> as Sink>⟧.told out.old ≡ Some before → result ≡ Status.Done →
        IsOkAnd (ideal held (map string_bytes words.now))
        (λ text. W.contents (writer_inner out.new.out) ≡ Some (before ++ text)) }
{
    let (status, _) = melissa(alloc, words, files, out, keepers);
    match status {
        Status::Done => match out.finish() {
            Ok(()) => return Status::Done,
            Err(_) => return Status::WriteFault,
        },
        other => return other,
    }
}

/// Carries out the command of the program's words.
fn answer(rt: &HostRuntime, alloc: Global) -> Result<Status, Status> {
    let words = words(rt, alloc)?;
    let mut files = StdFiles::new(rt);
    let Ok(mut out) = BufferedSink::new(alloc, io::writer(rt)) else {
        return Err(Status::Memory);
    };
    let Ok(keepers) = checkpoint_stores(rt, alloc) else {
        return Err(Status::Memory);
    };
    Ok(run_over(alloc, words.as_slice(), &mut files, &mut out, keepers))
}

/// The whole program: carries out the command of its words over the files of the system and standard output, prints the
/// reason of every answer but `Done` on standard error, and ends with the answer's number.
pub fn run_program(rt: &HostRuntime) -> ExitCode {
    let status = match answer(rt, rt.alloc()) {
        Ok(status) | Err(status) => status,
    };
    if status.number() != 0 {
        let _ = eprintln!(rt; "melissa: {status}");
    }
    ExitCode::from(status.number())
}
