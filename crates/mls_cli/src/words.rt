//! Which words are a command.

ghost use Rattle.std.specs.Prelude.{◌≡◌, ◌^◌, map, string_bytes};
ghost use Rattle.std.specs.List.{list_all};
ghost use Rattle.mls_text.specs.Decimals.{number_below};
ghost use Rattle.mls_cli.specs.Words.{is_word, fold_names, fold_in, design_in, trial_in, watch_in, bins_in, export_in, resume_in, command_in, words_of};
ghost use Rattle.mls_cli.specs.Words.{Reads, ReadsNames, ReadsNumber};

use mls_study::Name;
use mls_text::{canonical_number, small_canonical_number};
use std::alloc::{AllocError, Global};

/// The names of a tape and a schedule that are saved.
#[derive(Debug, Drop)]
pub struct NamePair {
    pub tape: Name,
    pub schedule: Name,
}

/// A command of `melissa`, with the words behind its name in their places.
#[derive(Debug, Drop)]
pub enum Words {
    /// Fold a tape under a schedule, or under the plain one.
    Fold {
        study: Name,
        tape: Name,
        schedule: Option<Name>,
    },
    /// Print the design.
    Design {
        study: Name,
    },
    /// Make a tape and a schedule from a number, save them where they have names, and fold them.
    Trial {
        study: Name,
        number: u64,
        saved: Option<NamePair>,
    },
    /// Print a launcher's decisions.
    Watch {
        study: Name,
        events: Name,
    },
    /// Fold over histograms.
    Bins {
        study: Name,
        tape: Name,
        schedule: Option<Name>,
    },
    /// Save what the keepers hold.
    Export {
        study: Name,
        prefix: Name,
    },
    /// Fold on from the saved states of `old` ranks.
    Resume {
        study: Name,
        old: u32,
        prefix: Name,
        tape: Name,
        schedule: Option<Name>,
    },
}

/// The names of a study, a tape and, if there is one, a schedule.
#[derive(Debug, Drop)]
struct FoldNames {
    study: Name,
    tape: Name,
    schedule: Option<Name>,
}

/// Why words are no command.
#[derive(Clone, Copy, Debug, PartialEq, Eq)]
pub enum WordsFault {
    /// They are none by the rule of words.
    Usage,
    /// Memory ran out.
    Memory,
}

impl From<AllocError> for WordsFault {
    ghost use Rattle.std.specs.Prelude.{◌≡◌};
    ghost use Rattle.mls_cli.specs.declared.words.WordsFault.TheVariants.{Memory};

    ghost from_gives = { λ _ fault. fault ≡ Memory };

    fn from(_error: AllocError) -> WordsFault {
        WordsFault::Memory
    }
}

/// Whether a word is not empty and does not begin with `-`.
fn is_word(word: &str) -> bool
    ensures { result ≡ is_word word.now }
{
    match word.as_bytes() {
        [first, ..] => *first != b'-',
        [] => false,
    }
}

/// Whether all are words.
fn are_words(names: &[String]) -> bool
    ensures { result ≡ list_all is_word (map string_bytes names.now) }
{
    for name in names {
        if !is_word(name.as_str()) {
            return false;
        }
    }
    true
}

/// The names behind the words `fold` and `bins`.
fn fold_names(alloc: Global, names: &[String]) -> Result<FoldNames, WordsFault>
    ensures { ReadsNames result (fold_names (map string_bytes names.now)) }
{
    match names {
        [study, tape] => {
            let study = Name::new(alloc, study.as_str())?;
            let tape = Name::new(alloc, tape.as_str())?;
            return Ok(FoldNames {
                study,
                tape,
                schedule: None,
            });
        }
        [study, tape, schedule] => {
            let study = Name::new(alloc, study.as_str())?;
            let tape = Name::new(alloc, tape.as_str())?;
            let schedule = Some(Name::new(alloc, schedule.as_str())?);
            return Ok(FoldNames {
                study,
                tape,
                schedule,
            });
        }
        _ => return Err(WordsFault::Usage),
    }
}

/// The names behind the word `fold`.
fn fold_in(alloc: Global, names: &[String]) -> Result<Words, WordsFault>
    ensures { Reads result (fold_in (map string_bytes names.now)) }
{
    let FoldNames {
        study,
        tape,
        schedule,
    } = fold_names(alloc, names)?;
    Ok(Words::Fold {
        study,
        tape,
        schedule,
    })
}

/// The name behind the word `design`.
fn design_in(alloc: Global, names: &[String]) -> Result<Words, WordsFault>
    ensures { Reads result (design_in (map string_bytes names.now)) }
{
    match names {
        [study] => {
            let study = Name::new(alloc, study.as_str())?;
            return Ok(Words::Design { study });
        }
        _ => return Err(WordsFault::Usage),
    }
}

/// A number below 2^64.
fn number_of(word: &str) -> Result<u64, WordsFault>
    ensures { ReadsNumber result (number_below (2 ^ 64) word.now) }
{
    canonical_number(word.as_bytes()).ok_or(WordsFault::Usage)
}

/// A number below 2^32.
fn small_number_of(word: &str) -> Result<u32, WordsFault>
    ensures { ReadsNumber result (number_below (2 ^ 32) word.now) }
{
    small_canonical_number(word.as_bytes()).ok_or(WordsFault::Usage)
}

/// The words behind `trial`.
fn trial_in(alloc: Global, names: &[String]) -> Result<Words, WordsFault>
    ensures { Reads result (trial_in (map string_bytes names.now)) }
{
    match names {
        [study, number] => {
            let number = number_of(number.as_str())?;
            let study = Name::new(alloc, study.as_str())?;
            return Ok(Words::Trial {
                study,
                number,
                saved: None,
            });
        }
        [study, number, tape, schedule] => {
            let number = number_of(number.as_str())?;
            let study = Name::new(alloc, study.as_str())?;
            let tape = Name::new(alloc, tape.as_str())?;
            let schedule = Name::new(alloc, schedule.as_str())?;
            return Ok(Words::Trial {
                study,
                number,
                saved: Some(NamePair { tape, schedule }),
            });
        }
        _ => return Err(WordsFault::Usage),
    }
}

/// The names behind the word `watch`.
fn watch_in(alloc: Global, names: &[String]) -> Result<Words, WordsFault>
    ensures { Reads result (watch_in (map string_bytes names.now)) }
{
    match names {
        [study, events] => {
            let study = Name::new(alloc, study.as_str())?;
            let events = Name::new(alloc, events.as_str())?;
            return Ok(Words::Watch { study, events });
        }
        _ => return Err(WordsFault::Usage),
    }
}

/// The names behind the word `bins`.
fn bins_in(alloc: Global, names: &[String]) -> Result<Words, WordsFault>
    ensures { Reads result (bins_in (map string_bytes names.now)) }
{
    let FoldNames {
        study,
        tape,
        schedule,
    } = fold_names(alloc, names)?;
    Ok(Words::Bins {
        study,
        tape,
        schedule,
    })
}

/// The names behind the word `export`.
fn export_in(alloc: Global, names: &[String]) -> Result<Words, WordsFault>
    ensures { Reads result (export_in (map string_bytes names.now)) }
{
    match names {
        [study, prefix] => {
            let study = Name::new(alloc, study.as_str())?;
            let prefix = Name::new(alloc, prefix.as_str())?;
            return Ok(Words::Export { study, prefix });
        }
        _ => return Err(WordsFault::Usage),
    }
}

/// The words behind `resume`.
fn resume_in(alloc: Global, names: &[String]) -> Result<Words, WordsFault>
    ensures { Reads result (resume_in (map string_bytes names.now)) }
{
    match names {
        [study, old, prefix, tape] => {
            let old = small_number_of(old.as_str())?;
            let study = Name::new(alloc, study.as_str())?;
            let prefix = Name::new(alloc, prefix.as_str())?;
            let tape = Name::new(alloc, tape.as_str())?;
            return Ok(Words::Resume {
                study,
                old,
                prefix,
                tape,
                schedule: None,
            });
        }
        [study, old, prefix, tape, schedule] => {
            let old = small_number_of(old.as_str())?;
            let study = Name::new(alloc, study.as_str())?;
            let prefix = Name::new(alloc, prefix.as_str())?;
            let tape = Name::new(alloc, tape.as_str())?;
            let schedule = Some(Name::new(alloc, schedule.as_str())?);
            return Ok(Words::Resume {
                study,
                old,
                prefix,
                tape,
                schedule,
            });
        }
        _ => return Err(WordsFault::Usage),
    }
}

/// The command of a name, with the words behind it.
#[tactic(auto, unfolding(crate::specs::Words::command_in))]
fn command_in(alloc: Global, command: &str, names: &[String]) -> Result<Words, WordsFault>
    ensures { Reads result (command_in command.now (map string_bytes names.now)) }
{
    match command {
        "fold" => return fold_in(alloc, names),
        "design" => return design_in(alloc, names),
        "trial" => return trial_in(alloc, names),
        "watch" => return watch_in(alloc, names),
        "bins" => return bins_in(alloc, names),
        "export" => return export_in(alloc, names),
        "resume" => return resume_in(alloc, names),
        _ => return Err(WordsFault::Usage),
    }
}

/// The command that words are.
///
/// `Usage` is answered exactly where the words are no command: where a word behind the first is empty or begins with
/// `-`, the first is no command's name, the number of words is another, or a number is no canonical decimal in its
/// range. `Memory` comes only for words that are one.
#[tactic(auto, unfolding(crate::specs::Words::words_of))]
pub fn read_words(alloc: Global, words: &[String]) -> Result<Words, WordsFault>
    ensures { Reads result (words_of (map string_bytes words.now)) }
{
    match words {
        [command, names @ ..] => {
            if are_words(names) {
                return command_in(alloc, command.as_str(), names);
            }
            return Err(WordsFault::Usage);
        }
        [] => return Err(WordsFault::Usage),
    }
}
