//! Decimal text in a buffer of fixed size.

ghost use Rattle.std.specs.Prelude.{◌≡◌, ◌+◌, ◌-◌, ◌%◌, ◌≤◌, length, take, drop, pos, negsuc, ◌≤ℤ◌};
ghost use Rattle.std.specs.Fmt.{signed_decimal};
ghost use Rattle.mls_model.specs.ResultText.{millionths_words};

use itoa::Integer;
use std::str;

/// Room for the text of any number of 128 bits.
#[derive(Clone, Copy, Debug)]
pub struct Digits {
    bytes: [u8; 40],
}

impl Digits {
    /// A buffer with nothing in it yet.
    pub fn new() -> Digits {
        Digits { bytes: [0; 40] }
    }
}

/// The decimal text of `n`.
pub fn put_decimal(buffer: &mut Digits, n: i128) -> &str
    ensures { result.now ≡ signed_decimal n }
{
    let start = n.write(&mut buffer.bytes);
    str::from_utf8(&buffer.bytes[start..]).unwrap()
}

/// The last decimal digit of `n`.
fn last_digit(n: u32) -> u8
    ensures { result ≡ 48 + n % 10 }
{
    b'0' + (n % 10) as u8
}

/// Writes the text of `m` so that it ends at 9, and returns where it starts.
fn write_millionths(m: i32, bytes: &mut [u8; 40]) -> usize
    requires low { negsuc 1999999 ≤ℤ m }
    requires high { m ≤ℤ pos 2000000 }
    ensures within { result ≤ 9 }
    ensures written { take (9 - result) (drop result bytes.new) ≡ millionths_words m }
{
    let size = m.unsigned_abs();
    let rest = size % 1_000_000;
    let text = [
        b'-',
        last_digit(size / 1_000_000),
        b'.',
        last_digit(rest / 100_000),
        last_digit(rest / 10_000),
        last_digit(rest / 1_000),
        last_digit(rest / 100),
        last_digit(rest / 10),
        last_digit(rest),
    ];
    bytes[..9].copy_from_slice(&text);
    if m < 0 {
        return 0;
    }
    1
}

/// A number of millionths as a decimal fraction: a `-` where it is negative, the whole part, a point and six digits.
pub fn put_millionths(buffer: &mut Digits, m: i32) -> &str
    requires low { negsuc 1999999 ≤ℤ m }
    requires high { m ≤ℤ pos 2000000 }
    ensures text { result.now ≡ millionths_words m }
    ensures short { length result.now ≤ 9 }
{
    let start = write_millionths(m, &mut buffer.bytes);
    str::from_utf8(&buffer.bytes[start..9]).unwrap()
}
