//! Which words are a command.

ghost use Rattle.std.specs.Prelude.{◌≡◌, ◌≤◌, IfOk, map, string_bytes};
ghost use Rattle.mls_load.specs.Words.{ReadsNumber};
ghost use Rattle.mls_live.specs.Words.{number_within, run_in, serve_in, group_in, poll_in, command_in, words_of, FewServed, Reads};

use mls_load::{WordsFault, are_words};
use mls_study::Name;
use mls_text::small_canonical_number;
use std::alloc::Global;

/// A command of `melissad`, with the words behind its name in their places.
#[derive(Debug, Drop)]
pub enum Words {
    /// Run a tape's lanes on workers, and save the schedule that was run.
    Run {
        study: Name,
        tape: Name,
        workers: u32,
        schedule: Name,
    },
    /// Serve connections.
    Serve {
        study: Name,
        addr: Name,
        lanes: u32,
    },
    /// Send a life of a group.
    Group {
        study: Name,
        group: u32,
        life: u32,
        addr: Name,
    },
    /// Serve connections on one thread.
    Poll {
        study: Name,
        addr: Name,
        lanes: u32,
    },
}

/// The most workers, the most connections of `serve` and of `poll`, the greatest group and the greatest life.
const MOST_WORKERS: u32 = 64;

const MOST_SERVED: u32 = 65_535;

const MOST_POLLED: u32 = 1024;

const LAST_GROUP: u32 = 65_534;

const LAST_LIFE: u32 = 4_294_967_295;

/// A number from `least` to `most`.
fn number_within(word: &str, least: u32, most: u32) -> Result<u32, WordsFault>
    ensures reads { ReadsNumber result (number_within least most word.now) }
    ensures most { IfOk result (λ n. n ≤ most) }
{
    match small_canonical_number(word.as_bytes()) {
        Some(number) => {
            if number < least {
                return Err(WordsFault::Usage);
            }
            if most < number {
                return Err(WordsFault::Usage);
            }
            return Ok(number);
        }
        None => return Err(WordsFault::Usage),
    }
}

/// The words behind `run`.
fn run_in(alloc: Global, names: &[String]) -> Result<Words, WordsFault>
    ensures reads { Reads result (run_in (map string_bytes names.now)) }
    ensures few { IfOk result FewServed }
{
    match names {
        [study, tape, workers, schedule] => {
            let workers = number_within(workers.as_str(), 1, MOST_WORKERS)?;
            let study = Name::new(alloc, study.as_str())?;
            let tape = Name::new(alloc, tape.as_str())?;
            let schedule = Name::new(alloc, schedule.as_str())?;
            return Ok(Words::Run {
                study,
                tape,
                workers,
                schedule,
            });
        }
        _ => return Err(WordsFault::Usage),
    }
}

/// The words behind `serve`.
fn serve_in(alloc: Global, names: &[String]) -> Result<Words, WordsFault>
    ensures reads { Reads result (serve_in (map string_bytes names.now)) }
    ensures few { IfOk result FewServed }
{
    match names {
        [study, addr, lanes] => {
            let lanes = number_within(lanes.as_str(), 1, MOST_SERVED)?;
            let study = Name::new(alloc, study.as_str())?;
            let addr = Name::new(alloc, addr.as_str())?;
            return Ok(Words::Serve { study, addr, lanes });
        }
        _ => return Err(WordsFault::Usage),
    }
}

/// The words behind `group`.
fn group_in(alloc: Global, names: &[String]) -> Result<Words, WordsFault>
    ensures reads { Reads result (group_in (map string_bytes names.now)) }
    ensures few { IfOk result FewServed }
{
    match names {
        [study, group, life, addr] => {
            let group = number_within(group.as_str(), 0, LAST_GROUP)?;
            let life = number_within(life.as_str(), 1, LAST_LIFE)?;
            let study = Name::new(alloc, study.as_str())?;
            let addr = Name::new(alloc, addr.as_str())?;
            return Ok(Words::Group {
                study,
                group,
                life,
                addr,
            });
        }
        _ => return Err(WordsFault::Usage),
    }
}

/// The words behind `poll`.
fn poll_in(alloc: Global, names: &[String]) -> Result<Words, WordsFault>
    ensures reads { Reads result (poll_in (map string_bytes names.now)) }
    ensures few { IfOk result FewServed }
{
    match names {
        [study, addr, lanes] => {
            let lanes = number_within(lanes.as_str(), 1, MOST_POLLED)?;
            let study = Name::new(alloc, study.as_str())?;
            let addr = Name::new(alloc, addr.as_str())?;
            return Ok(Words::Poll { study, addr, lanes });
        }
        _ => return Err(WordsFault::Usage),
    }
}

/// The command of a name, with the words behind it.
#[tactic(auto, unfolding(crate::specs::Words::command_in))]
fn command_in(alloc: Global, command: &str, names: &[String]) -> Result<Words, WordsFault>
    ensures reads { Reads result (command_in command.now (map string_bytes names.now)) }
    ensures few { IfOk result FewServed }
{
    match command {
        "run" => return run_in(alloc, names),
        "serve" => return serve_in(alloc, names),
        "group" => return group_in(alloc, names),
        "poll" => return poll_in(alloc, names),
        _ => return Err(WordsFault::Usage),
    }
}

/// The command that words are.
///
/// `Usage` is answered exactly where the words are no command: where a word behind the first is empty or begins with
/// `-`, the first is no command's name, the number of words is another, or a number is no canonical decimal in its
/// range. `Memory` comes only for words that are one.
#[tactic(auto, unfolding(crate::specs::Words::words_of))]
pub fn read_words(alloc: Global, words: &[String]) -> Result<Words, WordsFault>
    ensures reads { Reads result (words_of (map string_bytes words.now)) }
    ensures few { IfOk result FewServed }
{
    match words {
        [command, names @ ..] => {
            if are_words(names) {
                return command_in(alloc, command.as_str(), names);
            }
            return Err(WordsFault::Usage);
        }
        [] => return Err(WordsFault::Usage),
    }
}
