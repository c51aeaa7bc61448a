//! The old ranks' states: their common marks, and the bytes of their sums.

ghost use Rattle.std.specs.Prelude.{◌≡◌, ◌≢◌, ℕ, ◌<◌, ◌≤◌, Bool, false, [], ◌∷◌, ◌++◌, length, vec_len, get_or, Ok, IsOk, IfOk, IfErr, OnOk, IfSome, IsNone};
ghost use Rattle.mls_model.specs.Studies.{planes};
ghost use Rattle.mls_ckpt.specs.CellParts.{part_at, IsSumsPart};
ghost use Rattle.mls_ckpt.specs.Checkpoints.{checkpoint_of};
ghost use Rattle.mls_ckpt.specs.Reading.{AreBytes};
ghost use Rattle.mls_ckpt.specs.States.{IsState, is_marked as marks_key};
ghost use Rattle.mls_ledger.specs.MarkSets.{is_marked};
ghost use Rattle.mls_rank.specs.Cores.{sizes_of, has_mark};
ghost use Rattle.mls_rank.specs.Saving.{state_of};
ghost use Rattle.mls_resume.specs.Reads.{lists_of, AreFirst, AreRead};
ghost use Rattle.mls_resume.specs.Recut.{old_state, has_old, AreFiles, SamePlane, DifferInPlane, DifferAt, SameMarks, HasCommon, Refuses, FirstDiffers, part_size};

use crate::faults::RecutFault;
use mls_base::faults::NoMemory;
use mls_base::shape::Shape;
use mls_ckpt::laws::saved_states_are_spelled;
use mls_ckpt::{Put, RecoverFault};
use mls_field::field::Field;
use mls_field::fold::RowFold;
use mls_ledger::Marks;
use mls_rank::RankCore;
use std::alloc::Global;

/// Each is a byte.
pub(crate) fn are_bytes(bytes: &[u8])
    ensures { AreBytes bytes.now }
{
    let _size = bytes.len();
}

/// The core that a file spells.
fn recovered(
    alloc: Global,
    old: &Shape,
    rank: u32,
    file: &[u8],
) -> Result<RankCore<Field>, NoMemory>
    requires rank_in { rank < old.now.ranks }
    requires spelled { IsOk (checkpoint_of part_at old.now rank file.now) }
    ensures sizes { IfOk result (λ core. sizes_of core ≡ old.now) }
    ensures read { IfOk result (λ core. checkpoint_of part_at old.now rank file.now ≡ Ok (state_of core)) }
    ensures marks { IfOk result (λ core. (group plane : ℕ) → has_mark core group plane
        ≡ marks_key (state_of core).marks (record { group = group; plane = plane })) }
    ensures long { IfOk result (λ core. length (state_of core).part ≡ part_size old.now rank) }
    ensures valid { IfOk result (λ core. IsState IsSumsPart old.now rank (state_of core)) }
{
    saved_states_are_spelled();
    old.valid();
    are_bytes(file);
    match RankCore::recover(alloc, old, rank, file) {
        Ok(core) => {
            core.valid();
            return Ok(core);
        }
        Err(RecoverFault::Bad { .. }) => unreachable!(),
        Err(RecoverFault::Memory) => return Err(NoMemory),
    }
}

/// The core of an old rank.
fn read_rank(
    alloc: Global,
    old: &Shape,
    files: &[Vec<u8>],
    rank: u32,
) -> Result<RankCore<Field>, NoMemory>
    requires rank_in { rank < old.now.ranks }
    requires files { AreFiles old.now (lists_of files.now) }
    ensures sizes { IfOk result (λ core. sizes_of core ≡ old.now) }
    ensures state { IfOk result (λ core. state_of core ≡ old_state old.now (lists_of files.now) rank) }
    ensures marks { IfOk result (λ core. (group plane : ℕ) →
        has_mark core group plane ≡ has_old old.now (lists_of files.now) rank group plane) }
    ensures long { IfOk result (λ core. length (state_of core).part ≡ part_size old.now rank) }
    ensures valid { OnOk result (IsState IsSumsPart old.now rank (old_state old.now (lists_of files.now) rank)) }
{
    let file = &files[rank as usize];
    recovered(alloc, old, rank, file.as_slice())
}

/// The bytes of a core's sums.
fn part_of(alloc: Global, core: &RankCore<Field>) -> Result<Vec<u8>, NoMemory>
    ensures { IfOk result (λ bytes. bytes.items ≡ (state_of core.now).part) }
{
    let mut out = Put::new(alloc);
    core.folded().put(&mut out)?;
    Ok(out.finish())
}

/// Puts the marks of a plane, which lacks them, into a set.
fn copy_plane(core: &RankCore<Field>, groups: u32, plane: u32, marks: &mut Marks)
    requires groups { groups ≡ marks.old.groups }
    requires plane_in { plane < marks.old.planes }
    requires none { (group : ℕ) → is_marked marks.old group plane ≡ false }
    ensures groups { marks.new.groups ≡ marks.old.groups }
    ensures planes { marks.new.planes ≡ marks.old.planes }
    ensures copied { (group : ℕ) → group < groups → is_marked marks.new group plane ≡ has_mark core.now group plane }
    ensures others { (group other : ℕ) → other ≢ plane → is_marked marks.new group other ≡ is_marked marks.old group other }
{
    for group in 0..groups {
        if core.has(group, plane) {
            marks.set(group, plane);
        }
    }
}

/// The marks of a core of a study.
fn marks_of(alloc: Global, shape: &Shape, core: &RankCore<Field>) -> Result<Marks, NoMemory>
    ensures groups { IfOk result (λ marks. marks.groups ≡ shape.now.groups) }
    ensures planes { IfOk result (λ marks. marks.planes ≡ planes shape.now) }
    ensures marks { IfOk result (λ marks. (group plane : ℕ) → group < shape.now.groups → plane < planes shape.now →
        is_marked marks group plane ≡ has_mark core.now group plane) }
{
    let groups = shape.groups();
    let mut marks = Marks::new(alloc, shape)?;
    for plane in 0..shape.planes() {
        copy_plane(core, groups, plane, &mut marks);
    }
    Ok(marks)
}

/// The first group of a plane whose mark differs.
fn first_group(marks: &Marks, core: &RankCore<Field>, groups: u32, plane: u32) -> Option<u32>
    ensures some { IfSome result (λ group. DifferInPlane groups (is_marked marks.now) (has_mark core.now) plane group
        (is_marked marks.now group plane)) }
    ensures none { IsNone result → SamePlane groups (is_marked marks.now) (has_mark core.now) plane }
{
    for group in 0..groups {
        if marks.has(group, plane) != core.has(group, plane) {
            return Some(group);
        }
    }
    None
}

/// The first plane and group whose mark differs.
fn first_place(shape: &Shape, marks: &Marks, core: &RankCore<Field>) -> Option<(u32, u32)>
    ensures some { IfSome result (λ place. DifferAt shape.now (is_marked marks.now) (has_mark core.now) place.0 place.1
        (is_marked marks.now place.1 place.0)) }
    ensures none { IsNone result → SameMarks shape.now (is_marked marks.now) (has_mark core.now) }
{
    let groups = shape.groups();
    for plane in 0..shape.planes() {
        match first_group(marks, core, groups, plane) {
            Some(group) => return Some((plane, group)),
            None => {}
        }
    }
    None
}

/// The bytes of an old rank's sums, where its marks are those of rank 0.
fn read_other(
    alloc: Global,
    old: &Shape,
    files: &[Vec<u8>],
    other: u32,
    marks: &Marks,
) -> Result<Vec<u8>, RecutFault>
    requires rank_in { other < old.now.ranks }
    requires files { AreFiles old.now (lists_of files.now) }
    requires first { AreFirst old.now (lists_of files.now) marks.now }
    ensures part { IfOk result (λ part. part.items ≡ (old_state old.now (lists_of files.now) other).part) }
    ensures long { IfOk result (λ part. vec_len part ≡ part_size old.now other) }
    ensures valid { OnOk result (IsState IsSumsPart old.now other (old_state old.now (lists_of files.now) other)) }
    ensures common { OnOk result (HasCommon old.now (lists_of files.now) other) }
    ensures refused { IfErr result (λ fault. ((rank : ℕ) → rank < other → HasCommon old.now (lists_of files.now) rank)
        → Refuses old.now (lists_of files.now) fault) }
{
    let core = read_rank(alloc, old, files, other)?;
    match first_place(old, marks, &core) {
        Some((plane, group)) => {
            return Err(RecutFault::Differ {
                other,
                plane,
                group,
                first_has: marks.has(group, plane),
            });
        }
        None => {}
    }
    Ok(part_of(alloc, &core)?)
}

/// The marks of the first old rank, and the bytes of its sums.
fn read_first(alloc: Global, old: &Shape, files: &[Vec<u8>]) -> Result<(Marks, Vec<u8>), NoMemory>
    requires files { AreFiles old.now (lists_of files.now) }
    ensures marks { IfOk result (λ read. AreFirst old.now (lists_of files.now) read.0) }
    ensures part { IfOk result (λ read. read.1.items ≡ (old_state old.now (lists_of files.now) 0).part) }
    ensures long { IfOk result (λ read. vec_len read.1 ≡ part_size old.now 0) }
    ensures valid { OnOk result (IsState IsSumsPart old.now 0 (old_state old.now (lists_of files.now) 0)) }
{
    old.valid();
    let core = read_rank(alloc, old, files, 0)?;
    let marks = marks_of(alloc, old, &core)?;
    let part = part_of(alloc, &core)?;
    Ok((marks, part))
}

/// Puts a list of bytes behind others.
pub(crate) fn push(lists: &mut Vec<Vec<u8>>, bytes: Vec<u8>) -> Result<(), NoMemory>
    ensures { OnOk result (lists_of lists.new.items ≡ lists_of lists.old.items ++ bytes.items ∷ []) }
{
    match lists.push(bytes) {
        Ok(()) => return Ok(()),
        Err(_) => return Err(NoMemory),
    }
}

/// The common marks of the old ranks, and the bytes of the sums of each. The first difference of marks refuses them.
pub(crate) fn read_ranks(
    alloc: Global,
    old: &Shape,
    files: &[Vec<u8>],
) -> Result<(Marks, Vec<Vec<u8>>), RecutFault>
    requires files { AreFiles old.now (lists_of files.now) }
    ensures marks { IfOk result (λ read. AreFirst old.now (lists_of files.now) read.0) }
    ensures parts { IfOk result (λ read. AreRead old.now (lists_of files.now) old.now.ranks (lists_of read.1.items)) }
    ensures refused { IfErr result (λ fault. Refuses old.now (lists_of files.now) fault) }
{
    old.valid();
    let (marks, part) = read_first(alloc, old, files)?;
    let mut parts = Vec::with_capacity(alloc, old.ranks() as usize)?;
    push(&mut parts, part)?;
    for other in 1..old.ranks() {
        let part = read_other(alloc, old, files, other, &marks)?;
        push(&mut parts, part)?;
    }
    Ok((marks, parts))
}
