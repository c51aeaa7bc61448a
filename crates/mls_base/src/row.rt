//! One sample from each run of a group.

ghost use Rattle.std.specs.Prelude.{◌≡◌, ◌<◌, ◌≤◌, [], ◌∷◌, ◌++◌, length, slice_index};

use std::marker::Model;

/// A list of at most 18 samples, as many as a group of 16 parameters has runs.
#[derive(Debug, Drop)]
pub struct Row {
    samples: [u16; 18],
    count: u32,
}

impl Model for Row {
    ghost use Rattle.std.specs.Prelude.{ℕ, List, take, ◌≤◌};

    ghost Value = { List ℕ };

    ghost view = { λ row. take row.count row.samples };

    ghost invariant = { λ row. row.count ≤ 18 };
}

impl Row {
    /// No samples.
    pub fn new() -> Row
        ensures { result ≡ [] }
    {
        Row {
            samples: [0; 18],
            count: 0,
        }
    }

    /// Puts a sample behind the others.
    pub fn push(&mut self, x: u16)
        requires { length self.old < 18 }
        ensures { self.new ≡ self.old ++ x ∷ [] }
    {
        self.samples[self.count as usize] = x;
        self.count += 1;
    }

    /// How many samples there are.
    pub fn len(&self) -> u32
        ensures value { result ≡ length self.now }
        ensures few { result ≤ 18 }
    {
        self.count
    }

    /// The sample at a place.
    pub fn at(&self, i: u32) -> u16
        requires { i < length self.now }
        ensures { result ≡ slice_index self.now i }
    {
        self.samples[i as usize]
    }
}
