//! Numbers as bytes, one after the other.

ghost use Rattle.std.specs.Prelude.{◌≡◌, [], ◌∷◌, ◌++◌, OnOk, OnErr};
ghost use Rattle.std.specs.Int.{w8, w16, w32, w64, w128};
ghost use Rattle.mls_ckpt.specs.Reading.{spelled};

use byteorder::{BigEndian, ByteOrder};
use mls_base::faults::NoMemory;
use std::alloc::Global;
use std::marker::Model;

/// Bytes that grow at their end. Their value is their list.
#[derive(Drop)]
pub struct Put {
    bytes: Vec<u8>,
}

impl Model for Put {
    ghost use Rattle.std.specs.Prelude.{ℕ, List};

    ghost Value = { List ℕ };

    ghost view = { λ p. p.bytes.items };
}

impl Put {
    /// No bytes yet. It takes no memory yet.
    pub fn new(alloc: Global) -> Put
        ensures { result ≡ [] }
    {
        Put {
            bytes: Vec::new(alloc),
        }
    }

    /// Makes room for so many more bytes.
    pub fn reserve(&mut self, more: usize) -> Result<(), NoMemory>
        ensures { self.new ≡ self.old }
    {
        self.bytes.reserve_exact(more)?;
        Ok(())
    }

    /// Appends bytes. After want of memory they are as before.
    pub fn extend_from_slice(&mut self, bytes: &[u8]) -> Result<(), NoMemory>
        ensures ok { OnOk result (self.new ≡ self.old ++ bytes.now) }
        ensures err { OnErr result (self.new ≡ self.old) }
    {
        match self.bytes.extend_from_slice(bytes) {
            Ok(()) => Ok(()),
            Err(_) => Err(NoMemory),
        }
    }

    /// Appends a byte.
    #[tactic(auto, unfolding(crate::specs::Reading::spelled))]
    pub fn put_u8(&mut self, n: u8) -> Result<(), NoMemory>
        ensures ok { OnOk result (self.new ≡ self.old ++ spelled w8 n) }
        ensures err { OnErr result (self.new ≡ self.old) }
    {
        self.extend_from_slice(&[n])
    }

    /// Appends a number of 2 bytes, the highest first.
    #[tactic(auto, unfolding(crate::specs::Reading::spelled))]
    pub fn put_u16(&mut self, n: u16) -> Result<(), NoMemory>
        ensures ok { OnOk result (self.new ≡ self.old ++ spelled w16 n) }
        ensures err { OnErr result (self.new ≡ self.old) }
    {
        let mut bytes = [0; 2];
        BigEndian::write_u16(&mut bytes, n);
        self.extend_from_slice(&bytes)
    }

    /// Appends a number of 4 bytes, the highest first.
    #[tactic(auto, unfolding(crate::specs::Reading::spelled))]
    pub fn put_u32(&mut self, n: u32) -> Result<(), NoMemory>
        ensures ok { OnOk result (self.new ≡ self.old ++ spelled w32 n) }
        ensures err { OnErr result (self.new ≡ self.old) }
    {
        let mut bytes = [0; 4];
        BigEndian::write_u32(&mut bytes, n);
        self.extend_from_slice(&bytes)
    }

    /// Appends a number of 8 bytes, the highest first.
    #[tactic(auto, unfolding(crate::specs::Reading::spelled))]
    pub fn put_u64(&mut self, n: u64) -> Result<(), NoMemory>
        ensures ok { OnOk result (self.new ≡ self.old ++ spelled w64 n) }
        ensures err { OnErr result (self.new ≡ self.old) }
    {
        let mut bytes = [0; 8];
        BigEndian::write_u64(&mut bytes, n);
        self.extend_from_slice(&bytes)
    }

    /// Appends a number of 16 bytes, the highest first.
    #[tactic(auto, unfolding(crate::specs::Reading::spelled))]
    pub fn put_u128(&mut self, n: u128) -> Result<(), NoMemory>
        ensures ok { OnOk result (self.new ≡ self.old ++ spelled w128 n) }
        ensures err { OnErr result (self.new ≡ self.old) }
    {
        let mut bytes = [0; 16];
        BigEndian::write_u128(&mut bytes, n);
        self.extend_from_slice(&bytes)
    }

    /// The bytes.
    pub fn finish(self) -> Vec<u8>
        ensures { result.items ≡ self }
    {
        self.bytes
    }
}
