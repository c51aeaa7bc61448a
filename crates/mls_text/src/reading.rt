//! Numbers at the front of a line.

ghost use Rattle.std.specs.Prelude.{◌≡◌, ◌≤◌, length};
ghost use Rattle.std.specs.List.{prefix_len};
ghost use Rattle.std.specs.Char.{is_ascii_digit};
ghost use Rattle.mls_text.specs.Fronts.{seen, seen_rest, behind_byte, number_in, number_before};

use crate::decimal::small_canonical_number;

/// How many digits stand at the front.
#[tactic(auto, using(std::proofs::lemmas::List::Sums::prefix_len_is))]
fn digit_count(bytes: &[u8]) -> usize
    ensures value { result ≡ prefix_len is_ascii_digit bytes.now }
    ensures within { result ≤ length bytes.now }
{
    for (i, byte) in bytes.iter().enumerate() {
        if !byte.is_ascii_digit() {
            return i;
        }
    }
    bytes.len()
}

/// The number below 2^32 whose canonical decimal the digits at the front are, and the bytes behind them.
#[tactic(auto, unfolding(crate::specs::Fronts::number_in))]
fn number_in(bytes: &[u8]) -> Option<(u32, &[u8])>
    ensures { seen result ≡ number_in bytes.now }
{
    let (digits, rest) = bytes.split_at(digit_count(bytes));
    let number = small_canonical_number(digits)?;
    Some((number, rest))
}

/// The bytes behind a byte at the front.
fn behind_byte(bytes: &[u8], byte: u8) -> Option<&[u8]>
    ensures { seen_rest result ≡ behind_byte byte bytes.now }
{
    let (first, rest) = bytes.split_first()?;
    if *first == byte {
        return Some(rest);
    }
    None
}

/// The number at the front that has this byte behind it, and the bytes behind both.
#[tactic(auto, unfolding(crate::specs::Fronts::number_before))]
pub fn number_before(bytes: &[u8], end: u8) -> Option<(u32, &[u8])>
    ensures { seen result ≡ number_before end bytes.now }
{
    let (number, rest) = number_in(bytes)?;
    let rest = behind_byte(rest, end)?;
    Some((number, rest))
}
