//! A line of a text, made in a buffer of fixed size and written in one.

ghost use Rattle.std.specs.Prelude.{◌≡◌, ◌+◌, ◌≤◌, ◌++◌, [], length};
ghost use Rattle.mls_text.specs.Writing.{WritesTo};

use crate::put_bytes;
use arrayvec::ArrayVec;
use itoa::{Buffer, Integer};
use mls_base::faults::Failed;
use mls_base::outside::Sink;
use std::marker::Model;

/// The most bytes that a line has.
const LONGEST: usize = 384;

/// The bytes of a line so far, at most 384.
#[derive(Drop)]
pub struct Line {
    bytes: ArrayVec<u8, LONGEST>,
}

impl Model for Line {
    ghost use Rattle.std.specs.Prelude.{ℕ, List};

    ghost Value = { List ℕ };

    ghost view = { λ line. line.bytes.items };
}

impl Line {
    /// A line with nothing in it yet.
    pub fn new() -> Line
        ensures { result ≡ [] }
    {
        Line {
            bytes: ArrayVec::new(),
        }
    }

    /// Takes bytes behind those so far.
    pub fn text(&mut self, text: &[u8])
        requires { length self.old + length text.now ≤ 384 }
        ensures bytes { self.new ≡ self.old ++ text.now }
        ensures size { length self.new ≡ length self.old + length text.now }
    {
        self.bytes.try_extend_from_slice(text).unwrap()
    }

    /// Takes the decimal of a number.
    pub fn number<I: Integer>(&mut self, number: I)
        requires { length self.old + I.MAX_STR_LEN ≤ 384 }
        ensures bytes { self.new ≡ self.old ++ I.text number }
        ensures size { length self.new ≤ length self.old + I.MAX_STR_LEN }
    {
        let mut buffer = Buffer::new();
        self.text(buffer.format(number).as_bytes())
    }

    /// Writes the line. After `Failed` a front of it went out.
    pub fn put<O: Sink>(&self, out: &mut O) -> Result<(), Failed>
        ensures { WritesTo O.told O.faults O.sure out.old out.new result self.now }
    {
        put_bytes(out, self.bytes.as_slice())
    }
}
