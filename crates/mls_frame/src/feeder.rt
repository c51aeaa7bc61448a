//! Frames from bytes that come in pieces.

ghost use Rattle.std.specs.Prelude.{◌≡◌, ◌+◌, ◌-◌, ◌≤◌, ◌<◌, ◌^◌, [], length, drop, vec_len, OnOk, OnErr};
ghost use Rattle.std.specs.Borrow.{sem};
ghost use Rattle.mls_model.specs.Frames.{sight};
ghost use Rattle.mls_frame.specs.Views.{AreBytes, IsWithin, sight_of};
ghost use Rattle.mls_frame.specs.Feeding.{bytes_taken, after_feed, after_next};
ghost use Rattle.mls_frame.specs.FeederLends.{EndsAs};

use crate::frame_view::{Seen, view};
use mls_base::faults::NoMemory;
use std::alloc::Global;
use std::marker::Model;

/// Bytes that come in pieces, from whose front whole frames are taken. Bytes that were taken stay in the buffer
/// until they are at least as many as those that are left.
#[derive(Drop)]
pub struct Feeder {
    bytes: Vec<u8>,
    /// Where the bytes begin that are left.
    start: usize,
    offset: u64,
}

impl Model for Feeder {
    ghost use Rattle.std.specs.Prelude.{◌+◌, ◌-◌, ◌≤◌, ◌<◌, ◌^◌, length, drop};
    ghost use Rattle.mls_frame.specs.Feeding.{Fed};

    ghost Value = { Fed };

    ghost view = { λ f. record { offset = f.offset; rest = drop f.start f.bytes.items } };

    ghost invariant = { λ f. (f.start ≤ length f.bytes.items) × (f.offset + (length f.bytes.items - f.start) < 2 ^ 64) };
}

/// What the bytes from a place on begin with.
fn view_from(bytes: &Vec<u8>, start: usize) -> Seen<'_>
    requires { start ≤ vec_len bytes.now }
    ensures seen { sight_of result ≡ sight (drop start bytes.now.items) }
    ensures within { IsWithin (vec_len bytes.now - start) result }
{
    view(bytes.as_slice().split_at(start).1)
}

/// The items of a slice of bytes are bytes.
fn are_bytes(bytes: &[u8])
    ensures { AreBytes bytes.now }
{
    let _ = bytes;
}

/// The number of bytes that are taken off.
fn bytes_taken(seen: &Seen<'_>) -> u32
    ensures { result ≡ bytes_taken (sight_of seen.now) }
{
    match seen {
        Seen::Whole { used, .. } => *used,
        Seen::More | Seen::Bad(_) => 0,
    }
}

impl Feeder {
    /// A feeder with no bytes. It takes no memory yet.
    pub fn new(alloc: Global) -> Feeder
        ensures { result ≡ record { offset = 0; rest = [] } }
    {
        Feeder {
            bytes: Vec::new(alloc),
            start: 0,
            offset: 0,
        }
    }

    /// Appends a piece to the bytes that are left. After want of memory they are as before.
    pub fn feed(&mut self, piece: &[u8]) -> Result<(), NoMemory>
        requires { self.old.offset + (length self.old.rest + length piece.now) < 2 ^ 64 }
        ensures ok { OnOk result (self.new ≡ after_feed piece.now self.old) }
        ensures err { OnErr result (self.new ≡ self.old) }
    {
        self.compact();
        self.bytes.extend_from_slice(piece)?;
        Ok(())
    }

    /// Moves the bytes that are left to the front of the buffer, once they are no more than those that were taken.
    fn compact(&mut self)
        ensures { self.new ≡ self.old }
    {
        if self.start >= self.bytes.len() - self.start {
            self.bytes.drain(..self.start);
            self.start = 0;
        }
    }

    /// What the bytes that are left begin with. A whole frame is taken off; `More` and `Bad` change nothing.
    pub fn next(&mut self) -> Seen<'_>
        ensures seen { sight_of result ≡ sight self.old.rest }
        ensures within { IsWithin (length self.old.rest) result }
        ensures* taken { sem 𝓛 (EndsAs self.entry (after_next self.old)) }
    {
        let seen = view_from(&self.bytes, self.start);
        let used = bytes_taken(&seen);
        self.start += used as usize;
        self.offset += used as u64;
        seen
    }

    /// The number of bytes that were taken off.
    pub fn offset(&self) -> u64
        ensures { result ≡ self.now.offset }
    {
        self.offset
    }

    /// The number of bytes that are left.
    pub fn rest(&self) -> u64
        ensures { result ≡ length self.now.rest }
    {
        (self.bytes.len() - self.start) as u64
    }

    /// What is left are bytes, and all that was fed are less than 2^64.
    pub fn valid(&self)
        ensures bytes { AreBytes self.now.rest }
        ensures size { self.now.offset + length self.now.rest < 2 ^ 64 }
    {
        are_bytes(self.bytes.as_slice());
    }
}
