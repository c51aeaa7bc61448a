//! Rows over sinks that have too little room.

use crate::{ROOM, no_checkpoints, words_of};
use mls_base::memory::MemSink;
use mls_base::outside::Files;
use mls_cli::melissa;
use std::alloc::{AllocError, Global};
use std::io;

/// The number of a command's status over a sink of so much room, and what the sink then holds.
fn answer_in<F: Files>(
    alloc: Global,
    words: &[String],
    files: &mut F,
    room: u64,
) -> Result<(u8, Vec<u8>), AllocError> {
    let Ok(mut sink) = MemSink::new(alloc, room, Vec::new(alloc)) else {
        return Err(AllocError);
    };
    let keepers = no_checkpoints(alloc, None)?;
    let (status, _) = melissa(alloc, words, files, &mut sink, keepers);
    Ok((status.number(), Vec::from_slice(alloc, sink.bytes())?))
}

/// Carries out a command over a sink with room enough and then over one of every smaller room. It prints how many of the
/// latter answered that a write failed and were full with a front of the text.
pub(crate) fn print_smaller_rooms<F: Files>(
    rt: &HostRuntime,
    alloc: Global,
    line: &str,
    command: &str,
    files: &mut F,
) -> io::Result<()> {
    let words = words_of(alloc, command)?;
    let (_, text) = answer_in(alloc, words.as_slice(), files, ROOM)?;
    let mut full = 0u64;
    for room in 0..text.len() {
        let (number, written) = answer_in(alloc, words.as_slice(), files, room as u64)?;
        if number == 6 && text.as_slice().get(..room) == Some(written.as_slice()) {
            full = full.saturating_add(1);
        }
    }
    println!(rt; "> {line}")?;
    println!(rt;
        "{} bytes: {full} sinks are full with a front, answer 6",
        text.len()
    )
}
