//! Numbers taken from bytes in order. No call takes memory.

ghost use Rattle.std.specs.Prelude.{◌≡◌, ◌+◌, ◌≤◌, ◌<◌, ◌^◌, length, drop, IfOk};
ghost use Rattle.mls_ckpt.specs.Reading.{AreBytes};

use crate::faults::TakeFault;
use byteorder::{BigEndian, ByteOrder};

/// A place in bytes, with the bytes that are left there.
#[derive(Clone, Copy)]
pub struct Take<'a> {
    at: u64,
    left: &'a [u8],
    ghost room: { at + length left.now < 2 ^ 64 },
    ghost bytes: { AreBytes left.now },
}

impl<'a> Take<'a> {
    ghost use Rattle.std.specs.Int.{w8, w16, w32, w64, w128};
    ghost use Rattle.mls_ckpt.specs.Reading.{end_at, TakesNumber, Ends};
    ghost use Rattle.mls_ckpt.specs.Places.{cursor_of};

    /// The beginning of the bytes.
    pub fn new(bytes: &'a [u8]) -> Take<'a>
        ensures { cursor_of result ≡ record { at = 0; left = bytes.now } }
    {
        Take { at: 0, left: bytes }
    }

    // The place so many bytes on.
    fn moved(&self, n: usize) -> Take<'a>
        requires { n ≤ length self.now.left.now }
        ensures { cursor_of result ≡ record { at = self.now.at + n; left = drop n self.now.left.now } }
    {
        Take {
            at: self.at + n as u64,
            left: self.left.split_at(n).1,
        }
    }

    /// The next byte, which is at most `most`. A refusal leaves the place unchanged.
    #[tactic(auto, unfolding(crate::specs::Reading::front, crate::specs::Reading::number_at))]
    pub fn u8(&mut self, most: u8) -> Result<u8, TakeFault>
        ensures exact { TakesNumber w8 most (cursor_of self.old) (cursor_of self.new) result }
        ensures few { IfOk result (λ n. n ≤ most) }
    {
        if self.left.len() < 1 {
            return Err(TakeFault::Short { at: self.at });
        }
        let n = self.left[0];
        if n > most {
            return Err(TakeFault::Range { at: self.at });
        }
        *self = self.moved(1);
        Ok(n)
    }

    /// The next number of 2 bytes, which is at most `most`. A refusal leaves the place unchanged.
    #[tactic(auto, unfolding(crate::specs::Reading::front, crate::specs::Reading::number_at))]
    pub fn u16(&mut self, most: u16) -> Result<u16, TakeFault>
        ensures exact { TakesNumber w16 most (cursor_of self.old) (cursor_of self.new) result }
        ensures few { IfOk result (λ n. n ≤ most) }
    {
        if self.left.len() < 2 {
            return Err(TakeFault::Short { at: self.at });
        }
        let n = BigEndian::read_u16(self.left);
        if n > most {
            return Err(TakeFault::Range { at: self.at });
        }
        *self = self.moved(2);
        Ok(n)
    }

    /// The next number of 4 bytes, which is at most `most`. A refusal leaves the place unchanged.
    #[tactic(auto, unfolding(crate::specs::Reading::front, crate::specs::Reading::number_at))]
    pub fn u32(&mut self, most: u32) -> Result<u32, TakeFault>
        ensures exact { TakesNumber w32 most (cursor_of self.old) (cursor_of self.new) result }
        ensures few { IfOk result (λ n. n ≤ most) }
    {
        if self.left.len() < 4 {
            return Err(TakeFault::Short { at: self.at });
        }
        let n = BigEndian::read_u32(self.left);
        if n > most {
            return Err(TakeFault::Range { at: self.at });
        }
        *self = self.moved(4);
        Ok(n)
    }

    /// The next number of 8 bytes, which is at most `most`. A refusal leaves the place unchanged.
    #[tactic(auto, unfolding(crate::specs::Reading::front, crate::specs::Reading::number_at))]
    pub fn u64(&mut self, most: u64) -> Result<u64, TakeFault>
        ensures exact { TakesNumber w64 most (cursor_of self.old) (cursor_of self.new) result }
        ensures few { IfOk result (λ n. n ≤ most) }
    {
        if self.left.len() < 8 {
            return Err(TakeFault::Short { at: self.at });
        }
        let n = BigEndian::read_u64(self.left);
        if n > most {
            return Err(TakeFault::Range { at: self.at });
        }
        *self = self.moved(8);
        Ok(n)
    }

    /// The next number of 16 bytes, which is at most `most`. A refusal leaves the place unchanged.
    #[tactic(auto, unfolding(crate::specs::Reading::front, crate::specs::Reading::number_at))]
    pub fn u128(&mut self, most: u128) -> Result<u128, TakeFault>
        ensures exact { TakesNumber w128 most (cursor_of self.old) (cursor_of self.new) result }
        ensures few { IfOk result (λ n. n ≤ most) }
    {
        if self.left.len() < 16 {
            return Err(TakeFault::Short { at: self.at });
        }
        let n = BigEndian::read_u128(self.left);
        if n > most {
            return Err(TakeFault::Range { at: self.at });
        }
        *self = self.moved(16);
        Ok(n)
    }

    /// The number of bytes before the place.
    pub fn at(&self) -> u64
        ensures { result ≡ (cursor_of self.now).at }
    {
        self.at
    }

    /// Refuses bytes that are left.
    #[tactic(auto, unfolding(crate::specs::Reading::end_at))]
    pub fn end(&self) -> Result<(), TakeFault>
        ensures { Ends result (end_at (cursor_of self.now)) }
    {
        if self.left.is_empty() {
            Ok(())
        } else {
            Err(TakeFault::Trailing { at: self.at })
        }
    }
}
