//! Rows of several commands, one after another over the same files in memory and the same keepers.

ghost use Rattle.std.specs.Prelude.{◌≡◌, vec_len, IfOk};

use crate::{ROOM, no_checkpoints, print_answer, words_of};
use mls_base::memory::{MemFiles, MemKeeper, MemSink};
use mls_base::outside::Files;
use mls_cli::melissa;
use std::alloc::{AllocError, Global};
use std::io;

/// Lets files in memory hold what other files hold of a name.
fn hold<F: Files>(
    alloc: Global,
    name: &str,
    files: &mut F,
    held: &mut MemFiles,
) -> Result<(), AllocError> {
    if let Ok(bytes) = files.load(alloc, name, ROOM) {
        if held.set(name, bytes.as_slice()).is_err() {
            return Err(AllocError);
        }
    }
    Ok(())
}

/// Lets files in memory hold what other files hold of the words of some commands, and of the file of rank 0 of a prefix.
fn hold_words<F: Files>(
    alloc: Global,
    commands: &str,
    files: &mut F,
    held: &mut MemFiles,
) -> Result<(), AllocError> {
    for word in commands.split(' ') {
        let name = word.strip_suffix(";").unwrap_or(word);
        let first = format!(in alloc; "{name}.0")?;
        hold(alloc, name, files, held)?;
        hold(alloc, first.as_str(), files, held)?;
    }
    Ok(())
}

/// Carries out one of the commands and prints what came of it, and how many bytes the first file of an export then has.
fn print_next(
    rt: &HostRuntime,
    alloc: Global,
    command: &str,
    held: &mut MemFiles,
    keepers: Vec<MemKeeper>,
) -> io::Result<Vec<MemKeeper>>
    requires { vec_len keepers ≡ 64 }
    ensures { IfOk result (λ after. vec_len after ≡ 64) }
{
    let words = words_of(alloc, command)?;
    let Ok(mut sink) = MemSink::new(alloc, ROOM, Vec::new(alloc)) else {
        return Err(AllocError.into());
    };
    let (status, keepers) = melissa(alloc, words.as_slice(), held, &mut sink, keepers);
    print_answer(rt, command, &status, sink.bytes())?;
    if let Some(bytes) = held.held("pre.0") {
        println!(rt; "pre.0 holds {} bytes", bytes.len())?;
    }
    Ok(keepers)
}

/// Carries out commands that stand between `; `, each over the files and keepers that the one before it left. A call of
/// the files or of the first keeper may be one that fails.
pub(crate) fn print_chain<F: Files>(
    rt: &HostRuntime,
    alloc: Global,
    failing_file: Option<u64>,
    failing_keeper: Option<u64>,
    commands: &str,
    files: &mut F,
) -> io::Result<()> {
    let mut fails = Vec::new(alloc);
    if let Some(call) = failing_file {
        fails.push(call)?;
        println!(rt; "call {call} of the files fails")?;
    }
    if let Some(call) = failing_keeper {
        println!(rt; "call {call} of keeper 0 fails")?;
    }
    let mut held = MemFiles::new(alloc, fails);
    hold_words(alloc, commands, files, &mut held)?;
    let mut keepers = no_checkpoints(alloc, failing_keeper)?;
    for command in commands.split("; ") {
        keepers = print_next(rt, alloc, command, &mut held, keepers)?;
    }
    Ok(())
}
