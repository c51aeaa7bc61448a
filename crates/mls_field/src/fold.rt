//! What a rank keeps of its rows.

ghost use Rattle.std.specs.Prelude.{◌≡◌, ℕ, ◌+◌, ◌<◌, ◌≤◌, ◌++◌, List, length, slice_index, Ok, IfOk, IfErr, OnOk};
ghost use Rattle.mls_model.specs.Studies.{Sizes, planes};
ghost use Rattle.mls_model.specs.Blocks.{block, width};
ghost use Rattle.mls_model.specs.Standing.{Table, empty_table};
ghost use Rattle.mls_ckpt.specs.Reading.{Cursor, Read, Refuses};
ghost use Rattle.mls_ckpt.specs.Places.{cursor_of};
ghost use Rattle.mls_ckpt.specs.Laws.{IsReadPart, ReadsParts};
ghost use Rattle.mls_field.specs.ShiftedRows.{with_rows};
ghost use Rattle.mls_field.specs.PlaneCounts.{by_plane, IsOneMore};

use mls_base::faults::NoMemory;
use mls_base::rows::Rows;
use mls_base::shape::Shape;
use mls_ckpt::{Put, RecoverFault, Take};
use std::alloc::Global;

/// What a rank keeps of the rows of samples that it was given: for each plane and each place of the rank's block it
/// stands for a list of rows of shifted values.
/// A step here is the number of a plane.
pub trait RowFold: Sized + Drop {
    /// The study's numbers.
    ghost shape_of: { Self → Sizes };

    /// The rank whose block it is.
    ghost rank_of: { Self → ℕ };

    /// How many rows were added to each plane.
    ghost row_count: { Self → ℕ → ℕ };

    /// Whether it stands for these lists of rows.
    ghost stands: { Self → Table → Type 0 };

    /// The bytes of what it keeps, a part of a checkpoint.
    ghost part: { Self → List ℕ };

    /// How such a part is read for a rank of a study and so many rows of each plane: the place behind it, or why it
    /// is refused.
    ghost part_at: { Sizes → ℕ → List ℕ → Cursor → Read Cursor };

    /// The part of what stands for these lists of rows.
    ghost part_of: { Sizes → ℕ → Table → List ℕ };

    /// For a rank's block, with no rows.
    fn new(alloc: Global, shape: &Shape, rank: u32) -> Result<Self, NoMemory>
        requires { rank < shape.now.ranks }
        ensures shape { IfOk result (λ f. shape_of f ≡ shape.now) }
        ensures rank { IfOk result (λ f. rank_of f ≡ rank) }
        ensures counted { IfOk result (λ f. (plane : ℕ) → row_count f plane ≡ 0) }
        ensures stands { IfOk result (λ f. stands f empty_table) };

    /// Adds a row at each place of the plane: the block's samples as shifted values. Row 0 of the block is A, row 1
    /// is B, row 2 + k is C^k.
    fn add_block<R: Rows>(&mut self, step: u32, rows: &R)
        requires plane_in { step < planes (shape_of self.old) }
        requires rows { R.row_count rows.now ≡ (shape_of self.old).parameters + 2 }
        requires cells { R.place_count rows.now ≡ width (block (shape_of self.old) (rank_of self.old)) }
        requires room { row_count self.old step < 65535 }
        ensures shape { shape_of self.new ≡ shape_of self.old }
        ensures rank { rank_of self.new ≡ rank_of self.old }
        ensures counted { IsOneMore (row_count self.old) (row_count self.new) step }
        ensures stands { let s = shape_of self.old in
            (t : Table) → stands self.old t →
            stands self.new (with_rows s (rank_of self.old) t step (R.row_count rows.now) (R.sample rows.now)) };

    /// Drops all rows.
    fn reset(&mut self)
        ensures shape { shape_of self.new ≡ shape_of self.old }
        ensures rank { rank_of self.new ≡ rank_of self.old }
        ensures counted { (plane : ℕ) → row_count self.new plane ≡ 0 }
        ensures stands { stands self.new empty_table };

    /// Appends its part of a checkpoint.
    fn put(&self, out: &mut Put) -> Result<(), NoMemory>
        ensures { OnOk result (out.new ≡ out.old ++ part self.now) };

    /// What a part of a checkpoint says of so many rows of each plane. A refusal leaves the place unchanged.
    fn take(
        alloc: Global,
        shape: &Shape,
        rank: u32,
        counts: &[u32],
        from: &mut Take<'_>,
    ) -> Result<Self, RecoverFault>
        requires rank_in { rank < shape.now.ranks }
        requires planes { length counts.now ≡ planes shape.now }
        requires few { (plane : ℕ) → slice_index counts.now plane ≤ shape.now.groups }
        ensures shape { IfOk result (λ f. shape_of f ≡ shape.now) }
        ensures rank { IfOk result (λ f. rank_of f ≡ rank) }
        ensures counted { IfOk result (λ f. (plane : ℕ) →
            row_count f plane ≡ slice_index counts.now plane) }
        ensures read { OnOk result
            (part_at shape.now rank counts.now (cursor_of from.old) ≡ Ok (cursor_of from.new)) }
        ensures part { IfOk result (λ f. (cursor_of from.old).left ≡ part f ++ (cursor_of from.new).left) }
        ensures fault { IfErr result (λ fault. Refuses fault (part_at shape.now rank counts.now (cursor_of from.old)) ×
            (cursor_of from.new ≡ cursor_of from.old)) };

    /// What holds of every part: it is read again, whatever follows; what is read is such a part; the part of what
    /// stands for lists of rows is theirs; and two with one part stand for the same lists.
    fn part_laws()
        ensures read_again { (f : Self) →
            IsReadPart part_at (shape_of f) (rank_of f) (by_plane (shape_of f) (row_count f)) (part f) }
        ensures takes { ReadsParts part_at }
        ensures spelled { (f : Self) (t : Table) → stands f t → part f ≡ part_of (shape_of f) (rank_of f) t }
        ensures agree { (f g : Self) (t : Table) → shape_of f ≡ shape_of g → rank_of f ≡ rank_of g →
            ((plane : ℕ) → plane < planes (shape_of f) → row_count f plane ≡ row_count g plane) →
            part f ≡ part g → stands f t → stands g t };
}
