//! A key with its pieces, taken from a checkpoint.

ghost use Rattle.std.specs.Prelude.{◌≡◌, ℕ, ◌≤◌, ◌<◌, ◌-◌, ◌&&◌, not, cond, [], ◌∷◌, ◌++◌, IfOk};
ghost use Rattle.std.specs.Int.{w16, w32};
ghost use Rattle.mls_ckpt.specs.declared.faults.CkptWhy.TheVariants as why;
ghost use Rattle.mls_ckpt.specs.declared.faults.RecoverFault.TheVariants.{Bad};
ghost use Rattle.mls_ckpt.specs.Checkpoints.{share_at};
ghost use Rattle.mls_ckpt.specs.Places.{cursor_of};
ghost use Rattle.mls_ckpt.specs.Reading.{number_at, many};
ghost use Rattle.mls_ckpt.specs.Recovering.{Gives, RecoversNumber};
ghost use Rattle.mls_ckpt.specs.States.{after_one, overlapping};
ghost use Rattle.mls_ckpt.specs.Checkpoints as checkpoints;
ghost use Rattle.mls_ckpt.specs.States.{is_from, is_marked};
ghost use Rattle.mls_ledger.specs.MarkRows.{rows_of};
ghost use Rattle.mls_model.specs.Blocks.{overlaps};
ghost use Rattle.mls_assembly.specs.Held.{key_at};
ghost use Rattle.mls_assembly.specs.Saved.{share_taken, IsShareTaken, key_saved, IsKeyTaken};

use crate::group_step::GroupStep;
use crate::kept_piece::KeptPiece;
use crate::key_pieces::KeyPieces;
use mls_base::faults::NoMemory;
use mls_base::shape::Shape;
use mls_ckpt::{CkptWhy, RecoverFault, Take};
use mls_ledger::Marks;
use std::alloc::Global;

/// The next number of 2 bytes, which is at most `most`.
pub(crate) fn u16_of(from: &mut Take<'_>, most: u16) -> Result<u16, RecoverFault>
    ensures exact { RecoversNumber (cursor_of from.old) (cursor_of from.new) result
        (number_at w16 most (cursor_of from.old)) }
    ensures few { IfOk result (λ n. n ≤ most) }
{
    Ok(from.u16(most)?)
}

/// The next number of 4 bytes, which is at most `most`.
pub(crate) fn u32_of(from: &mut Take<'_>, most: u32) -> Result<u32, RecoverFault>
    ensures exact { RecoversNumber (cursor_of from.old) (cursor_of from.new) result
        (number_at w32 most (cursor_of from.old)) }
    ensures few { IfOk result (λ n. n ≤ most) }
{
    Ok(from.u32(most)?)
}

/// A rule fails at a place.
pub(crate) fn range(at: u64) -> RecoverFault
    ensures { result ≡ Bad at why.Range }
{
    RecoverFault::Bad {
        at,
        why: CkptWhy::Range,
    }
}

// Puts a sample behind others.
fn push(samples: &mut Vec<u16>, sample: u16) -> Result<(), NoMemory>
    ensures { IfOk result (λ _. samples.new.items ≡ samples.old.items ++ sample ∷ []) }
{
    samples.push(sample)?;
    Ok(())
}

// So many samples. Room is taken as they come, so that a number which the bytes can't hold takes none.
fn samples_of(alloc: Global, count: u32, from: &mut Take<'_>) -> Result<Vec<u16>, RecoverFault>
    ensures { Gives (λ samples. samples.items) (cursor_of from.new) result
        (many (λ i from. number_at w16 65535 from) after_one count 0 (cursor_of from.old)) }
{
    let mut samples = Vec::new(alloc);
    for _place in 0..count {
        let sample = u16_of(from, u16::MAX)?;
        push(&mut samples, sample)?;
    }
    Ok(samples)
}

/// A client's piece, from the least client on, with the client.
#[tactic(auto, unfolding(mls_ckpt::specs::Checkpoints::share_at))]
pub(crate) fn take_share(
    alloc: Global,
    shape: &Shape,
    rank: u32,
    least: u32,
    from: &mut Take<'_>,
) -> Result<(u32, KeptPiece), RecoverFault>
    requires { rank < shape.now.ranks }
    ensures read { Gives share_taken (cursor_of from.new) result (share_at shape.now rank least (cursor_of from.old)) }
    ensures valid { IfOk result (λ taken. IsShareTaken shape.now rank least taken) }
{
    shape.valid();
    let at = from.at();
    let client = u16_of(from, (shape.clients() - 1) as u16)? as u32;
    let overlap = shape.overlap(rank, client);
    if client < least || overlap.first >= overlap.end {
        return Err(range(at));
    }
    let count = overlap.end - overlap.first;
    let samples = samples_of(alloc, (shape.parameters() + 2) * count, from)?;
    Ok((
        client,
        KeptPiece::from_samples(overlap.first, count, samples),
    ))
}

// 1 where a client overlaps the block, else 0.
fn overlap_count(shape: &Shape, rank: u32, client: u32) -> u16
    requires rank { rank < shape.now.ranks }
    requires client { client < shape.now.clients }
    ensures { result ≡ cond (overlaps shape.now rank client) 1 0 }
{
    let overlap = shape.overlap(rank, client);
    if overlap.first < overlap.end { 1 } else { 0 }
}

// How many clients overlap the block.
#[tactic(auto, unfolding(mls_ckpt::specs::States::overlapping))]
fn overlapping(shape: &Shape, rank: u32) -> u16
    requires { rank < shape.now.ranks }
    ensures { result ≡ overlapping shape.now rank }
{
    shape.valid();
    let mut clients = 0;
    for client in 0..shape.clients() {
        clients += overlap_count(shape, rank, client);
    }
    clients
}

// Whether a key isn't before the least.
fn is_from(least: GroupStep, key: GroupStep) -> bool
    ensures { result ≡ is_from (key_at least) (key_at key) }
{
    least.step < key.step || (least.step == key.step && least.group <= key.group)
}

// Whether a key may come next: it isn't before the least, and it isn't marked.
fn may_come(marks: &Marks, least: GroupStep, key: GroupStep) -> bool
    ensures { result ≡ (is_from (key_at least) (key_at key) && not (is_marked (rows_of marks.now) (key_at key))) }
{
    marks.valid();
    let marked = marks.has(key.group, key.step);
    is_from(least, key) && !marked
}

/// A key with its pieces, from the least key on, that isn't marked. A fault may leave the place where it is.
#[tactic(auto, unfolding(mls_ckpt::specs::Checkpoints::key_at))]
pub(crate) fn take_key(
    alloc: Global,
    shape: &Shape,
    rank: u32,
    marks: &Marks,
    least: GroupStep,
    from: &mut Take<'_>,
) -> Result<(GroupStep, KeyPieces), RecoverFault>
    requires { rank < shape.now.ranks }
    ensures read { Gives key_saved (cursor_of from.new) result
        (checkpoints.key_at shape.now rank (rows_of marks.now) (key_at least) (cursor_of from.old)) }
    ensures valid { IfOk result (λ taken. IsKeyTaken shape.now rank (key_at least) taken) }
{
    shape.valid();
    let group = u32_of(from, shape.groups() - 1)?;
    let at = from.at();
    let step = u32_of(from, shape.planes().saturating_sub(1))?;
    let key = GroupStep { step, group };
    if !may_come(marks, least, key) {
        return Err(range(at));
    }
    let life = u32_of(from, u32::MAX)?;
    let at = from.at();
    let count = u16_of(from, overlapping(shape, rank).saturating_sub(1))?;
    if count < 1 {
        return Err(range(at));
    }
    let pieces = KeyPieces::take(alloc, shape, rank, life, count, from)?;
    Ok((key, pieces))
}
