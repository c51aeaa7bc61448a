//! The program `melissad` over the files of the system, standard output and the network.

use crate::commands::melissad;
use crate::words::{Words, read_words};
use mls_base::clock::SystemClock;
use mls_base::gate::OpenGate;
use mls_base::system::{StdFiles, StdSink};
use mls_load::{checkpoint_stores, load_study, program_words};
use mls_result::Status;
use mls_tcp::TcpDoor;
use std::alloc::Global;
use std::process::ExitCode;
use std::sync::Wait;
use std::thread::Threads;
use std::time::Duration;

/// What is printed of words that are no command.
const USAGE: &str =
    "usage: melissad run STUDY TAPE WORKERS SCHEDULE | serve STUDY ADDR LANES | group STUDY GROUP LIFE ADDR | poll STUDY ADDR LANES";

/// How many seconds an accepted connection may be silent before its first frame has come.
const FIRST_FRAME: u64 = 10;

/// How many seconds a connection may be silent whose study can't be read: it is not served.
const NO_STUDY: u64 = 1;

/// How many seconds a client may be silent: what the study of `serve` says.
fn silence_of(rt: &HostRuntime, alloc: Global, words: &[String]) -> u64 {
    let Ok(Words::Serve { study, .. }) = read_words(alloc, words) else {
        return NO_STUDY;
    };
    match load_study(alloc, &mut StdFiles::new(rt), study.as_str()) {
        Ok(study) => study.shape().silence() as u64,
        Err(_) => NO_STUDY,
    }
}

/// The door to the network, for the words of a command.
fn door_of<'a>(rt: &'a HostRuntime, alloc: Global, words: &[String]) -> TcpDoor<&'a HostRuntime> {
    let silence = silence_of(rt, alloc, words);
    TcpDoor::with_time_outs(
        rt,
        Duration::from_secs(FIRST_FRAME),
        Duration::from_secs(silence),
    )
}

/// Carries out the command of the program's words.
fn answer<T: Threads + Wait + Sync>(
    rt: &HostRuntime,
    threads: &T,
    alloc: Global,
) -> Result<Status, Status> {
    let words = program_words(rt, alloc)?;
    let mut files = StdFiles::new(rt);
    let mut out = StdSink::new(rt);
    let Ok(keepers) = checkpoint_stores(rt, alloc) else {
        return Err(Status::Memory);
    };
    let door = door_of(rt, alloc, words.as_slice());
    let (status, _, _) = melissad(
        threads,
        alloc,
        words.as_slice(),
        &mut files,
        &mut out,
        keepers,
        door,
        SystemClock::new(rt),
        &OpenGate,
    );
    Ok(status)
}

/// The whole program: carries out the command of its words over the files of the system, standard output and the
/// network, with threads for the workers of `run` and `serve`, prints the reason of every answer but `Done` on standard error, and
/// ends with the answer's number.
pub fn run_program<T: Threads + Wait + Sync>(rt: &HostRuntime, threads: &T) -> ExitCode {
    let status = match answer(rt, threads, rt.alloc()) {
        Ok(status) | Err(status) => status,
    };
    match &status {
        Status::Done => {}
        Status::Usage => {
            let _ = eprintln!(rt; "melissad: {}", USAGE);
        }
        other => {
            let _ = eprintln!(rt; "melissad: {other}");
        }
    }
    ExitCode::from(status.number())
}
