//! Rows over files in memory, of which a call may be one that fails.

use crate::{ROOM, no_checkpoints, print_answer, words_of};
use mls_base::memory::{MemFiles, MemSink};
use mls_base::outside::Files;
use mls_cli::melissa;
use std::alloc::{AllocError, Global};
use std::io;

/// Files in memory that hold what these files hold of the words.
fn files_in_memory<F: Files>(
    alloc: Global,
    words: &[String],
    failing: Option<u64>,
    files: &mut F,
) -> Result<MemFiles, AllocError> {
    let mut fails = Vec::new(alloc);
    if let Some(call) = failing {
        fails.push(call)?;
    }
    let mut held = MemFiles::new(alloc, fails);
    for word in words {
        if let Ok(bytes) = files.load(alloc, word.as_str(), ROOM) {
            if held.set(word.as_str(), bytes.as_slice()).is_err() {
                return Err(AllocError);
            }
        }
    }
    Ok(held)
}

/// Prints how many bytes a name holds, and these where they are text.
fn print_held(rt: &HostRuntime, name: &str, files: &MemFiles) -> io::Result<()> {
    let Some(bytes) = files.held(name) else {
        return Ok(());
    };
    println!(rt; "{name} holds {} bytes", bytes.len())?;
    match std::str::from_utf8(bytes) {
        Ok(text) => print!(rt; "{text}"),
        Err(_) => Ok(()),
    }
}

/// Carries out a line's command over files in memory that hold what these files hold of its words. It prints what came of
/// it, and what the names behind a trial's number hold.
pub(crate) fn print_row_in_memory<F: Files>(
    rt: &HostRuntime,
    alloc: Global,
    line: &str,
    failing: Option<u64>,
    command: &str,
    files: &mut F,
) -> io::Result<()> {
    let words = words_of(alloc, command)?;
    let mut held = files_in_memory(alloc, words.as_slice(), failing, files)?;
    let keepers = no_checkpoints(alloc, None)?;
    let Ok(mut sink) = MemSink::new(alloc, ROOM, Vec::new(alloc)) else {
        return println!(rt; "out of memory");
    };
    let (status, _) = melissa(alloc, words.as_slice(), &mut held, &mut sink, keepers);
    print_answer(rt, line, &status, sink.bytes())?;
    for name in words.iter().skip(3) {
        print_held(rt, name.as_str(), &held)?;
    }
    Ok(())
}
