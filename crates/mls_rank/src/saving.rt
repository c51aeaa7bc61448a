//! The head and the counts of a checkpoint, as they are written.

ghost use Rattle.std.specs.Prelude.{◌≡◌, ◌<◌, ◌++◌, [], cond, OnOk};
ghost use Rattle.mls_ckpt.specs.Reading.{texts};
ghost use Rattle.mls_ckpt.specs.Spellings.{head_text, counts_text, sized_text, threshold_numbers};
ghost use Rattle.mls_rank.specs.Heads.{sizes_numbers};

use mls_base::faults::NoMemory;
use mls_base::shape::Shape;
use mls_ckpt::Put;
use mls_model::outcomes::Counts;

/// The first four bytes of a checkpoint, `MCKP`.
pub(crate) const MAGIC: u32 = 0x4d43_4b50;

/// The version that is written.
pub(crate) const VERSION: u16 = 3;

// Appends the number of thresholds and the thresholds.
fn put_thresholds(shape: &Shape, out: &mut Put) -> Result<(), NoMemory>
    ensures { OnOk result (out.new ≡ out.old ++ texts sized_text (threshold_numbers shape.now) []) }
{
    out.put_u8(shape.thresholds() as u8)?;
    for i in 0..shape.thresholds() {
        out.put_u16(shape.threshold(i))?;
    }
    Ok(())
}

// Appends the numbers from that of groups on.
fn put_sizes(shape: &Shape, rank: u32, out: &mut Put) -> Result<(), NoMemory>
    ensures { OnOk result (out.new ≡ out.old ++ texts sized_text (sizes_numbers shape.now rank) []) }
{
    out.put_u32(shape.groups())?;
    out.put_u32(shape.parameters())?;
    out.put_u32(shape.ranks())?;
    out.put_u32(shape.clients())?;
    out.put_u32(rank)?;
    put_thresholds(shape, out)
}

/// The byte of samples: 0 for unsigned ones, 1 for signed ones.
pub(crate) fn samples_number(shape: &Shape) -> u8
    ensures { result ≡ cond shape.now.signed 1 0 }
{
    if shape.signed() { 1 } else { 0 }
}

/// Appends the head of a study and a rank, in version 3.
#[tactic(auto, unfolding(mls_ckpt::specs::Spellings::head_text, mls_ckpt::specs::Spellings::head_numbers))]
pub(crate) fn put_head(shape: &Shape, rank: u32, out: &mut Put) -> Result<(), NoMemory>
    ensures { OnOk result (out.new ≡ out.old ++ head_text 3 shape.now rank []) }
{
    out.put_u32(MAGIC)?;
    out.put_u16(VERSION)?;
    out.put_u8(samples_number(shape))?;
    out.put_u32(shape.cells())?;
    out.put_u32(shape.steps())?;
    out.put_u32(shape.fields())?;
    put_sizes(shape, rank, out)
}

/// Appends the eleven counts.
#[tactic(auto, unfolding(mls_ckpt::specs::Spellings::counts_text))]
pub(crate) fn put_counts(counts: &Counts, out: &mut Put) -> Result<(), NoMemory>
    ensures { OnOk result (out.new ≡ out.old ++ counts_text counts.now []) }
{
    out.put_u64(counts.accepted)?;
    out.put_u64(counts.kept)?;
    out.put_u64(counts.replay)?;
    out.put_u64(counts.stale)?;
    out.put_u64(counts.repeated)?;
    out.put_u64(counts.f1)?;
    out.put_u64(counts.f2)?;
    out.put_u64(counts.f3)?;
    out.put_u64(counts.f4)?;
    out.put_u64(counts.f5)?;
    out.put_u64(counts.f6)
}
