//! The head and the counts of a checkpoint, as they are read.

ghost use Rattle.std.specs.Prelude.{◌≡◌, ℕ, ◌<◌, ◌≤◌, ◌++◌, IfOk};
ghost use Rattle.std.specs.Int.{w8, w16, w32, w64};
ghost use Rattle.mls_model.specs.declared.outcomes.Counts.{Counts as CountsValue};
ghost use Rattle.mls_ckpt.specs.declared.faults.RecoverFault.TheVariants.{Bad as BadFault};
ghost use Rattle.mls_ckpt.specs.Checkpoints.{all_fixed, head_at, counts_at};
ghost use Rattle.mls_ckpt.specs.Places.{cursor_of};
ghost use Rattle.mls_ckpt.specs.Reading.{number_at, fixed_at, end_at};
ghost use Rattle.mls_ckpt.specs.Recovering.{Gives, RecoversNumber};
ghost use Rattle.mls_ckpt.specs.Spellings.{is_read, samples_byte, fields_number, threshold_numbers, head_numbers};
ghost use Rattle.mls_rank.specs.Heads.{sizes_numbers, mesh_numbers, Passes, Finishes};

use crate::saving::{MAGIC, samples_number};
use mls_base::shape::Shape;
use mls_ckpt::{CkptWhy, RecoverFault, Take};
use mls_model::outcomes::Counts;

// The most events that are counted.
const MOST_COUNTED: u64 = 1 << 62;

// What is wrong at a place.
fn bad(at: u64, why: CkptWhy) -> RecoverFault
    ensures { result ≡ BadFault at why }
{
    RecoverFault::Bad { at, why }
}

// The next number of 1 byte.
fn u8_of(from: &mut Take<'_>, most: u8) -> Result<u8, RecoverFault>
    ensures { RecoversNumber (cursor_of from.old) (cursor_of from.new) result (number_at w8 most (cursor_of from.old)) }
{
    Ok(from.u8(most)?)
}

// The next number of 2 bytes.
fn u16_of(from: &mut Take<'_>, most: u16) -> Result<u16, RecoverFault>
    ensures { RecoversNumber (cursor_of from.old) (cursor_of from.new) result (number_at w16 most (cursor_of from.old)) }
{
    Ok(from.u16(most)?)
}

// The next number of 4 bytes.
fn u32_of(from: &mut Take<'_>, most: u32) -> Result<u32, RecoverFault>
    ensures { RecoversNumber (cursor_of from.old) (cursor_of from.new) result (number_at w32 most (cursor_of from.old)) }
{
    Ok(from.u32(most)?)
}

// The next number of 8 bytes, which is at most `most`.
fn u64_of(from: &mut Take<'_>, most: u64) -> Result<u64, RecoverFault>
    ensures exact { RecoversNumber (cursor_of from.old) (cursor_of from.new) result
        (number_at w64 most (cursor_of from.old)) }
    ensures few { IfOk result (λ n. n ≤ most) }
{
    Ok(from.u64(most)?)
}

// Takes a number of 1 byte, which is this one.
#[tactic(auto, unfolding(mls_ckpt::specs::Reading::fixed_at))]
fn fixed_u8(from: &mut Take<'_>, n: u8, why: CkptWhy) -> Result<(), RecoverFault>
    ensures { Passes (cursor_of from.new) result (fixed_at why w8 n (cursor_of from.old)) }
{
    let at = from.at();
    let read = u8_of(from, u8::MAX)?;
    if read != n {
        return Err(bad(at, why));
    }
    Ok(())
}

// Takes a number of 2 bytes, which is this one.
#[tactic(auto, unfolding(mls_ckpt::specs::Reading::fixed_at))]
fn fixed_u16(from: &mut Take<'_>, n: u16, why: CkptWhy) -> Result<(), RecoverFault>
    ensures { Passes (cursor_of from.new) result (fixed_at why w16 n (cursor_of from.old)) }
{
    let at = from.at();
    let read = u16_of(from, u16::MAX)?;
    if read != n {
        return Err(bad(at, why));
    }
    Ok(())
}

// Takes a number of 4 bytes, which is this one.
#[tactic(auto, unfolding(mls_ckpt::specs::Reading::fixed_at))]
fn fixed_u32(from: &mut Take<'_>, n: u32, why: CkptWhy) -> Result<(), RecoverFault>
    ensures { Passes (cursor_of from.new) result (fixed_at why w32 n (cursor_of from.old)) }
{
    let at = from.at();
    let read = u32_of(from, u32::MAX)?;
    if read != n {
        return Err(bad(at, why));
    }
    Ok(())
}

// Takes the byte of samples, which version 1 lacks.
fn take_samples(shape: &Shape, version: u16, from: &mut Take<'_>) -> Result<(), RecoverFault>
    ensures { Passes (cursor_of from.new) result (all_fixed (samples_byte version shape.now) (cursor_of from.old)) }
{
    if version == 1 {
        return Ok(());
    }
    fixed_u8(from, samples_number(shape), CkptWhy::Shape)
}

// Takes the number of fields, which versions 1 and 2 lack.
fn take_fields(shape: &Shape, version: u16, from: &mut Take<'_>) -> Result<(), RecoverFault>
    ensures { Passes (cursor_of from.new) result (all_fixed (fields_number version shape.now) (cursor_of from.old)) }
{
    if version != 3 {
        return Ok(());
    }
    fixed_u32(from, shape.fields(), CkptWhy::Shape)
}

// Takes the number of thresholds and the thresholds.
fn take_thresholds(shape: &Shape, from: &mut Take<'_>) -> Result<(), RecoverFault>
    ensures { Passes (cursor_of from.new) result (all_fixed (threshold_numbers shape.now) (cursor_of from.old)) }
{
    fixed_u8(from, shape.thresholds() as u8, CkptWhy::Shape)?;
    for i in 0..shape.thresholds() {
        fixed_u16(from, shape.threshold(i), CkptWhy::Shape)?;
    }
    Ok(())
}

// Takes the numbers from that of groups on.
fn take_sizes(shape: &Shape, rank: u32, from: &mut Take<'_>) -> Result<(), RecoverFault>
    ensures { Passes (cursor_of from.new) result (all_fixed (sizes_numbers shape.now rank) (cursor_of from.old)) }
{
    fixed_u32(from, shape.groups(), CkptWhy::Shape)?;
    fixed_u32(from, shape.parameters(), CkptWhy::Shape)?;
    fixed_u32(from, shape.ranks(), CkptWhy::Shape)?;
    fixed_u32(from, shape.clients(), CkptWhy::Shape)?;
    fixed_u32(from, rank, CkptWhy::Shape)?;
    take_thresholds(shape, from)
}

// Takes the numbers from that of fields on.
fn take_planes(
    shape: &Shape,
    rank: u32,
    version: u16,
    from: &mut Take<'_>,
) -> Result<(), RecoverFault>
    ensures { Passes (cursor_of from.new) result
        (all_fixed (fields_number version shape.now ++ sizes_numbers shape.now rank) (cursor_of from.old)) }
{
    take_fields(shape, version, from)?;
    take_sizes(shape, rank, from)
}

// Takes the numbers from that of cells on.
fn take_mesh(
    shape: &Shape,
    rank: u32,
    version: u16,
    from: &mut Take<'_>,
) -> Result<(), RecoverFault>
    ensures { Passes (cursor_of from.new) result (all_fixed (mesh_numbers version shape.now rank) (cursor_of from.old)) }
{
    fixed_u32(from, shape.cells(), CkptWhy::Shape)?;
    fixed_u32(from, shape.steps(), CkptWhy::Shape)?;
    take_planes(shape, rank, version, from)
}

// Takes what stands in the head behind the version.
#[tactic(auto, unfolding(mls_ckpt::specs::Spellings::head_numbers))]
fn take_numbers(
    shape: &Shape,
    rank: u32,
    version: u16,
    from: &mut Take<'_>,
) -> Result<(), RecoverFault>
    ensures { Passes (cursor_of from.new) result (all_fixed (head_numbers version shape.now rank) (cursor_of from.old)) }
{
    take_samples(shape, version, from)?;
    take_mesh(shape, rank, version, from)
}

// Whether a version is read for a study.
fn is_read(shape: &Shape, version: u16) -> bool
    ensures { result ≡ is_read shape.now version }
{
    let single = shape.fields() == 1;
    let signed = shape.signed();
    version == 3 || ((version == 2 && single) || (version == 1 && (single && !signed)))
}

/// Takes the head of a study and a rank, and gives its version.
#[tactic(auto, unfolding(mls_ckpt::specs::Checkpoints::head_at))]
pub(crate) fn take_head(shape: &Shape, rank: u32, from: &mut Take<'_>) -> Result<u16, RecoverFault>
    ensures { Gives (λ (n : ℕ). n) (cursor_of from.new) result (head_at shape.now rank (cursor_of from.old)) }
{
    fixed_u32(from, MAGIC, CkptWhy::Magic)?;
    let at = from.at();
    let version = u16_of(from, u16::MAX)?;
    if !is_read(shape, version) {
        return Err(bad(at, CkptWhy::Version));
    }
    take_numbers(shape, rank, version, from)?;
    Ok(version)
}

/// Takes the eleven counts, which add up to at most 2^62.
#[tactic(auto, unfolding(mls_ckpt::specs::Checkpoints::counts_at))]
pub(crate) fn take_counts(from: &mut Take<'_>) -> Result<Counts, RecoverFault>
    ensures { Gives (λ (counts : CountsValue). counts) (cursor_of from.new) result (counts_at (cursor_of from.old)) }
{
    let room = MOST_COUNTED;
    let accepted = u64_of(from, room)?;
    let room = room - accepted;
    let kept = u64_of(from, room)?;
    let room = room - kept;
    let replay = u64_of(from, room)?;
    let room = room - replay;
    let stale = u64_of(from, room)?;
    let room = room - stale;
    let repeated = u64_of(from, room)?;
    let room = room - repeated;
    let f1 = u64_of(from, room)?;
    let room = room - f1;
    let f2 = u64_of(from, room)?;
    let room = room - f2;
    let f3 = u64_of(from, room)?;
    let room = room - f3;
    let f4 = u64_of(from, room)?;
    let room = room - f4;
    let f5 = u64_of(from, room)?;
    let f6 = u64_of(from, room - f5)?;
    Ok(Counts {
        accepted,
        kept,
        replay,
        stale,
        repeated,
        f1,
        f2,
        f3,
        f4,
        f5,
        f6,
    })
}

/// Refuses bytes that are left.
pub(crate) fn take_end(from: &Take<'_>) -> Result<(), RecoverFault>
    ensures { Finishes result (end_at (cursor_of from.now)) }
{
    Ok(from.end()?)
}
