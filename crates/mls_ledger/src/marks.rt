//! A set of keys, each a group and a plane, as one bit a key.

ghost use Rattle.std.specs.Prelude.{◌≡◌, ◌==◌, ◌+◌, ◌*◌, ◌/◌, ◌<◌, ℕ, cond, false, length, IfOk, OnOk, ◌||◌, ◌&&◌, ◌++◌, [], slice_index};
ghost use Rattle.mls_model.specs.Studies.{planes};
ghost use Rattle.mls_ckpt.specs.Checkpoints.{marks_at};
ghost use Rattle.mls_ckpt.specs.Places.{cursor_of};
ghost use Rattle.mls_ckpt.specs.Recovering.{Recovers};
ghost use Rattle.mls_ckpt.specs.Spellings.{marks_text};
ghost use Rattle.mls_ckpt.specs.States.{row_len};
ghost use Rattle.mls_ledger.specs.MarkSets.{is_marked, marked, plane_counts, IsPadded};
ghost use Rattle.mls_ledger.specs.MarkRows.{rows_of, AreRows};

use crate::reading::{are_bytes, counts_of, take_rows};
use mls_base::faults::NoMemory;
use mls_base::shape::Shape;
use mls_ckpt::{Put, RecoverFault, Take};
use std::alloc::Global;
use std::marker::Model;

/// A set of keys of a study. A key is a group and the number of a plane. It has one bit for each key, and the number of keys of each plane.
#[derive(Drop)]
pub struct Marks {
    groups: u32,
    planes: u32,
    bytes: Vec<u8>,
    counts: Vec<u32>,
}

impl Model for Marks {
    ghost use Rattle.mls_ledger.specs.MarkSets.{MarkSet, KeepsMarks};

    ghost Value = { MarkSet };

    ghost view = { λ m. record { groups = m.groups; planes = m.planes; bytes = m.bytes.items } };

    ghost invariant = { λ m. KeepsMarks (record { groups = m.groups; planes = m.planes; bytes = m.bytes.items }) m.counts.items };
}

impl Marks {
    /// The empty set of keys of a study.
    pub fn new(alloc: Global, shape: &Shape) -> Result<Marks, NoMemory>
        ensures groups { IfOk result (λ marks. marks.groups ≡ shape.now.groups) }
        ensures planes { IfOk result (λ marks. marks.planes ≡ planes shape.now) }
        ensures empty { IfOk result (λ marks. (group plane : ℕ) → is_marked marks group plane ≡ false) }
        ensures none { IfOk result (λ marks. (plane : ℕ) → marked marks plane ≡ 0) }
    {
        shape.valid();
        let groups = shape.groups();
        let planes = shape.planes();
        let size = planes as usize * ((groups as usize + 7) / 8);
        let bytes = vec![in alloc; 0u8; size]?;
        let counts = vec![in alloc; 0u32; planes as usize]?;
        Ok(Marks {
            groups,
            planes,
            bytes,
            counts,
        })
    }

    /// The bits are of a size, and those that no key has are 0.
    pub fn valid(&self)
        ensures size { length self.now.bytes ≡ self.now.planes * row_len self.now.groups }
        ensures padded { IsPadded self.now }
        ensures rows { AreRows self.now }
    {
        are_bytes(self.bytes.as_slice());
    }

    /// Where a key's byte is.
    fn place(&self, group: u32, plane: u32) -> usize
        requires group_in { group < self.now.groups }
        requires plane_in { plane < self.now.planes }
        ensures value { result ≡ plane * row_len self.now.groups + group / 8 }
        ensures within { result < length self.now.bytes }
    {
        let row = (self.groups as usize + 7) / 8;
        plane as usize * row + group as usize / 8
    }

    /// Whether a key is in the set. No key that the study lacks is. A step here is the number of a plane.
    pub fn has(&self, group: u32, step: u32) -> bool
        ensures { result ≡ is_marked self.now group step }
    {
        if group >= self.groups || step >= self.planes {
            return false;
        }
        let byte = self.bytes[self.place(group, step)];
        (byte >> (group % 8)) & 1 == 1
    }

    /// Puts a key into the set, which lacks it.
    pub fn set(&mut self, group: u32, step: u32)
        requires group_in { group < self.old.groups }
        requires plane_in { step < self.old.planes }
        requires absent { is_marked self.old group step ≡ false }
        ensures groups { self.new.groups ≡ self.old.groups }
        ensures planes { self.new.planes ≡ self.old.planes }
        ensures marked { (g p : ℕ) → is_marked self.new g p ≡ (is_marked self.old g p || ((g == group) && (p == step))) }
        ensures counted { (p : ℕ) → marked self.new p ≡ cond (p == step) (marked self.old p + 1) (marked self.old p) }
        ensures room { marked self.old step < self.old.groups }
    {
        let place = self.place(group, step);
        self.bytes[place] |= 1 << (group % 8);
        self.counts[step as usize] += 1;
    }

    /// The number of keys of a plane.
    pub fn count(&self, step: u32) -> u32
        requires { step < self.now.planes }
        ensures { result ≡ marked self.now step }
    {
        self.counts[step as usize]
    }

    /// The number of keys of each plane, in rising plane.
    pub fn counts(&self) -> &[u32]
        ensures all { result.now ≡ plane_counts self.now }
        ensures each { (plane : ℕ) → plane < self.now.planes → slice_index result.now plane ≡ marked self.now plane }
    {
        self.counts.as_slice()
    }

    /// Takes all keys out.
    pub fn reset(&mut self)
        ensures groups { self.new.groups ≡ self.old.groups }
        ensures planes { self.new.planes ≡ self.old.planes }
        ensures empty { (group plane : ℕ) → is_marked self.new group plane ≡ false }
        ensures none { (plane : ℕ) → marked self.new plane ≡ 0 }
    {
        self.bytes.fill(0);
        self.counts.fill(0);
    }
    /// Appends the bytes of each plane, in rising plane. After want of memory a front of them may stand there.
    pub fn put(&self, out: &mut Put) -> Result<(), NoMemory>
        ensures { OnOk result (out.new ≡ out.old ++ marks_text (rows_of self.now) []) }
    {
        out.reserve(self.bytes.len())?;
        for &byte in self.bytes.as_slice() {
            out.put_u8(byte)?;
        }
        Ok(())
    }

    /// Takes the marks of a study from bytes. `Bad` tells the first place that is wrong. A fault leaves the place unchanged.
    pub fn take(alloc: Global, shape: &Shape, from: &mut Take<'_>) -> Result<Marks, RecoverFault>
        ensures exact { Recovers rows_of (cursor_of from.old) (cursor_of from.new) result
            (marks_at shape.now (cursor_of from.old)) }
        ensures groups { IfOk result (λ marks. marks.groups ≡ shape.now.groups) }
        ensures planes { IfOk result (λ marks. marks.planes ≡ planes shape.now) }
    {
        let mut next = *from;
        let bytes = take_rows(alloc, shape, &mut next)?;
        let groups = shape.groups();
        let planes = shape.planes();
        let counts = counts_of(alloc, groups, planes, bytes.as_slice())?;
        *from = next;
        Ok(Marks {
            groups,
            planes,
            bytes,
            counts,
        })
    }
}
