//! Frames that own their samples.

ghost use Rattle.std.specs.Prelude.{◌≡◌, ℕ, ◌+◌, ◌*◌, ◌<◌, ◌≤◌, ◌^◌, List, [], ◌∷◌, ◌++◌, length, OnOk, OnErr};
ghost use Rattle.std.specs.List.{AllByRecursion};
ghost use Rattle.mls_model.specs.Frames.{longest_body};

use mls_base::faults::NoMemory;
use std::alloc::Global;
use std::marker::Model;

/// Samples, row by row. A sample is its 16 bits, whatever its values are read as.
#[derive(Drop)]
pub struct Samples {
    items: Vec<u16>,
}

impl Model for Samples {
    ghost use Rattle.std.specs.Prelude.{ℕ, List, ◌<◌, ◌^◌};
    ghost use Rattle.std.specs.List.{AllByRecursion};

    ghost Value = { List ℕ };

    ghost view = { λ s. s.items.items };

    ghost invariant = { λ s. AllByRecursion (λ x. x < 2 ^ 16) s.items.items };
}

impl Samples {
    /// No samples. It takes no memory yet.
    pub fn new(alloc: Global) -> Samples
        ensures { result ≡ [] }
    {
        Samples {
            items: Vec::new(alloc),
        }
    }

    /// Adds a sample at the end. After want of memory the samples are as before.
    pub fn push(&mut self, x: u16) -> Result<(), NoMemory>
        ensures ok { OnOk result (self.new ≡ self.old ++ x ∷ []) }
        ensures err { OnErr result (self.new ≡ self.old) }
    {
        self.items.push(x)?;
        Ok(())
    }

    /// The samples as a slice.
    pub fn as_slice(&self) -> &[u16]
        ensures value { result.now ≡ self.now }
    {
        self.items.as_slice()
    }
}

/// A piece of a group's timestep: rows of samples for the `count` cells from `first` on, row by row. Row 0 is
/// A, row 1 is B, row 2 + k is C^k. `step` is the number of a plane. It keeps that it has rows · count samples
/// and that its body has at most 67,108,864 bytes.
#[derive(Drop)]
pub struct Piece {
    pub life: u32,
    pub group: u32,
    pub step: u32,
    pub client: u16,
    pub rows: u16,
    pub first: u32,
    pub count: u32,
    pub samples: Samples,
    ghost size: { length samples ≡ rows * count },
    ghost body: { 25 + 2 * (rows * count) ≤ longest_body },
}

/// A frame: a message of one of eight kinds.
#[derive(Drop)]
pub enum Frame {
    Piece(Piece),
    /// A sign that the group runs.
    Beat {
        group: u32,
        life: u32,
    },
    /// The group's end.
    Bye {
        group: u32,
        life: u32,
    },
    /// The rank is to save its state.
    Save,
    /// The rank loses its state.
    Crash,
    /// The first frame of a connection.
    Hello {
        version: u16,
        group: u32,
        life: u32,
        client: u16,
        rank: u16,
    },
    /// The answer to a Hello that is taken, with the number of the connection's lane.
    Welcome {
        lane: u32,
    },
    /// The answer to a Hello that is refused.
    Refuse {
        reason: u8,
        value: u32,
    },
}

impl Samples {
    /// Each sample has 16 bits.
    pub fn valid(&self)
        ensures { AllByRecursion (λ x. x < 2 ^ 16) self.now }
    {
        let _ = &self.items;
    }
}
