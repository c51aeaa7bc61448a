//! Numbers read from canonical decimals.

ghost use Rattle.std.specs.Prelude.{◌≡◌, ◌^◌};
ghost use Rattle.mls_text.specs.Decimals.{number_below};

use itoa::Buffer;
use std::str;

/// The number below 2^64 whose canonical decimal these bytes are: `0`, or digits that don't begin with 0.
pub fn canonical_number(digits: &[u8]) -> Option<u64>
    ensures { result ≡ number_below (2 ^ 64) digits.now }
{
    let text = match str::from_utf8(digits) {
        Ok(text) => text,
        Err(_) => return None,
    };
    let number = match text.parse::<u64>() {
        Ok(number) => number,
        Err(_) => return None,
    };
    let mut buffer = Buffer::new();
    if buffer.format(number).as_bytes() == digits {
        return Some(number);
    }
    None
}

/// The number below 2^32 whose canonical decimal these bytes are.
pub fn small_canonical_number(digits: &[u8]) -> Option<u32>
    ensures { result ≡ number_below (2 ^ 32) digits.now }
{
    match canonical_number(digits) {
        Some(number) => match u32::try_from(number) {
            Ok(number) => return Some(number),
            Err(_) => return None,
        },
        None => return None,
    }
}
