//! Carries out the command of each line of the input, over the files that lie where it runs, and then the folds of the
//! largest and the least samples. It prints after each line how it went, what was written, and how many bytes the first
//! rank's keeper then holds, where it holds any. A line may say which call of that keeper is to fail. A line may ask for
//! files in memory, of which a call may be one that fails; then it also prints what the names behind a trial's number
//! hold. It may have several commands, one after another over the same files in memory and keepers. Or it asks for sinks of
//! every room that is too small. The kept run has the rows of folds, histograms, trials, saves and crashes, exports and
//! resumes, schedules, watches, designs, words and refusals.
#![tactic(auto)]

ghost use Rattle.std.specs.Prelude.{◌≡◌, vec_len, IfOk};

mod chain;
mod extremes;
mod in_memory;
mod rooms;

use crate::chain::print_chain;
use crate::extremes::extreme_files;
use crate::in_memory::print_row_in_memory;
use crate::rooms::print_smaller_rooms;
use mls_base::memory::{MemKeeper, MemSink};
use mls_base::outside::Files;
use mls_base::system::StdFiles;
use mls_cli::melissa;
use mls_result::Status;
use std::alloc::{AllocError, Global};
use std::io;

/// How many bytes a row may write.
pub(crate) const ROOM: u64 = 65_536;

/// A keeper in memory for each rank there may be, none of which holds anything. A call of the first may be one that fails.
pub(crate) fn no_checkpoints(
    alloc: Global,
    failing: Option<u64>,
) -> Result<Vec<MemKeeper>, AllocError>
    ensures { IfOk result (λ keepers. vec_len keepers ≡ 64) }
{
    let mut fails = Vec::new(alloc);
    if let Some(call) = failing {
        fails.push(call)?;
    }
    let mut keepers = Vec::new(alloc);
    keepers.push(MemKeeper::new(alloc, fails))?;
    for _ in 1..64_u32 {
        keepers.push(MemKeeper::new(alloc, Vec::new(alloc)))?;
    }
    Ok(keepers)
}

/// The number behind `call `, and the command behind these words, where the line begins so.
pub(crate) fn failing_call<'a>(line: &'a str, whose: &str) -> Option<(u64, &'a str)> {
    let (call, command) = line.split_once(whose)?;
    let number = call.strip_prefix("call ")?;
    let call = number.parse().ok()?;
    Some((call, command))
}

/// The words of a line, one space between each two. An empty line has none.
pub(crate) fn words_of(alloc: Global, line: &str) -> Result<Vec<String>, AllocError> {
    let mut words = Vec::new(alloc);
    if line.is_empty() {
        return Ok(words);
    }
    for word in line.split(' ') {
        words.push(String::from_str(alloc, word)?)?;
    }
    Ok(words)
}

/// Prints a line, how its command went and what was written.
pub(crate) fn print_answer(
    rt: &HostRuntime,
    line: &str,
    status: &Status,
    written: &[u8],
) -> io::Result<()> {
    println!(rt; "> {line}")?;
    println!(rt; "{}: {status}", status.number())?;
    match std::str::from_utf8(written) {
        Ok(text) => print!(rt; "{text}"),
        Err(_) => println!(rt; "no text"),
    }
}

/// Carries out a line's command over these files and prints what came of it.
fn print_row<F: Files>(
    rt: &HostRuntime,
    alloc: Global,
    line: &str,
    files: &mut F,
) -> io::Result<()> {
    let (failing, command) = match failing_call(line, " of keeper 0 fails: ") {
        Some((call, command)) => (Some(call), command),
        None => (None, line),
    };
    let words = words_of(alloc, command)?;
    let keepers = no_checkpoints(alloc, failing)?;
    let Ok(mut sink) = MemSink::new(alloc, ROOM, Vec::new(alloc)) else {
        return println!(rt; "out of memory");
    };
    let (status, keepers) = melissa(alloc, words.as_slice(), files, &mut sink, keepers);
    print_answer(rt, line, &status, sink.bytes())?;
    match keepers[0].held() {
        Some(bytes) => println!(rt; "keeper 0 holds {} bytes", bytes.len()),
        None => Ok(()),
    }
}

/// Carries out a line over the files of the system, files in memory, or sinks of every room that is too small.
fn print_line<F: Files>(
    rt: &HostRuntime,
    alloc: Global,
    line: &str,
    files: &mut F,
) -> io::Result<()> {
    if let Some(command) = line.strip_prefix("each smaller room: ") {
        return print_smaller_rooms(rt, alloc, line, command, files);
    }
    if let Some(commands) = line.strip_prefix("one after another: ") {
        return print_chain(rt, alloc, None, None, commands, files);
    }
    if let Some((call, commands)) = failing_call(line, " of the files fails, one after another: ") {
        return print_chain(rt, alloc, Some(call), None, commands, files);
    }
    if let Some((call, commands)) = failing_call(line, " of keeper 0 fails, one after another: ") {
        return print_chain(rt, alloc, None, Some(call), commands, files);
    }
    if let Some(command) = line.strip_prefix("in memory: ") {
        return print_row_in_memory(rt, alloc, line, None, command, files);
    }
    if let Some((call, command)) = failing_call(line, " of the files fails: ") {
        return print_row_in_memory(rt, alloc, line, Some(call), command, files);
    }
    print_row(rt, alloc, line, files)
}

fn main(rt: HostRuntime) -> io::Result<()> {
    let alloc = rt.alloc();
    let mut files = StdFiles::new(&rt);
    for line in rt.lines(alloc) {
        let line = line?;
        print_line(&rt, alloc, line.as_str(), &mut files)?;
    }
    let Ok(mut files) = extreme_files(alloc) else {
        return println!(rt; "out of memory");
    };
    print_row(&rt, alloc, "fold largest.toml largest.tape", &mut files)?;
    print_row(&rt, alloc, "fold least.toml least.tape", &mut files)
}
