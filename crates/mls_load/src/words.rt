//! The rule of words that both programs share.

ghost use Rattle.std.specs.Prelude.{◌≡◌, map, string_bytes};
ghost use Rattle.std.specs.List.{list_all};
ghost use Rattle.mls_load.specs.Words.{is_word};

use std::alloc::AllocError;

/// Why words are no command.
#[derive(Clone, Copy, Debug, PartialEq, Eq)]
pub enum WordsFault {
    /// They are none by the rule of words.
    Usage,
    /// Memory ran out.
    Memory,
}

impl From<AllocError> for WordsFault {
    ghost use Rattle.std.specs.Prelude.{◌≡◌};
    ghost use Rattle.mls_load.specs.declared.words.WordsFault.TheVariants.{Memory};

    ghost from_gives = { λ _ fault. fault ≡ Memory };

    fn from(_error: AllocError) -> WordsFault {
        WordsFault::Memory
    }
}

/// Whether a word is not empty and does not begin with `-`.
fn is_word(word: &str) -> bool
    ensures { result ≡ is_word word.now }
{
    match word.as_bytes() {
        [first, ..] => *first != b'-',
        [] => false,
    }
}

/// Whether no word is empty or begins with `-`.
pub fn are_words(names: &[String]) -> bool
    ensures { result ≡ list_all is_word (map string_bytes names.now) }
{
    for name in names {
        if !is_word(name.as_str()) {
            return false;
        }
    }
    true
}
