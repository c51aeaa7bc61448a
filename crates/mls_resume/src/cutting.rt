//! Checkpoints of another number of ranks.

ghost use Rattle.std.specs.Prelude.{◌≡◌, ℕ, ◌<◌, ◌≤◌, ◌*◌, ◌-◌, ◌++◌, [], length, sum, cond, vec_len, Ok, OnOk, IfOk, IfErr};
ghost use Rattle.mls_base.specs.Shapes.{with_ranks};
ghost use Rattle.mls_model.specs.Numbers.{below};
ghost use Rattle.mls_model.specs.Studies.{planes};
ghost use Rattle.mls_model.specs.Blocks.{overlaps};
ghost use Rattle.mls_ckpt.specs.States.{overlapping};
ghost use Rattle.mls_ckpt.specs.Spellings.{spelled_state};
ghost use Rattle.mls_ckpt.specs.Checkpoints.{checkpoint_of};
ghost use Rattle.mls_ckpt.specs.CellParts.{part_at};
ghost use Rattle.mls_ledger.specs.MarkSets.{plane_counts};
ghost use Rattle.mls_ledger.specs.MarkRows.{rows_of};
ghost use Rattle.mls_resume.specs.Opening.{AreOpenings};
ghost use Rattle.mls_resume.specs.Reads.{lists_of, AreFirst, AreRead, AreLong};
ghost use Rattle.mls_resume.specs.Recut.{taken_counts, recut_counts, recut_of, recut_bytes, recut_state, AreFiles, Recuts, Refuses};

use crate::cells::put_part;
use crate::faults::RecutFault;
use crate::head::{put_counts, put_head};
use crate::old_ranks::{push, read_ranks};
use mls_base::faults::NoMemory;
use mls_base::laws::{blocks_partition, rank_holds};
use mls_base::shape::Shape;
use mls_ckpt::Put;
use mls_ckpt::laws::{marks_are_tests, saved_states_read_again};
use mls_ledger::Marks;
use mls_rank::Counts;
use std::alloc::Global;

/// Whether a client overlaps a rank's block.
fn overlaps(shape: &Shape, rank: u32, client: u32) -> bool
    requires rank_in { rank < shape.now.ranks }
    requires client_in { client < shape.now.clients }
    ensures { result ≡ overlaps shape.now rank client }
{
    let overlap = shape.overlap(rank, client);
    overlap.first < overlap.end
}

/// How many clients overlap a rank's block.
#[tactic(auto, unfolding(mls_ckpt::specs::States::overlapping))]
fn overlapping(shape: &Shape, rank: u32) -> u64
    requires { rank < shape.now.ranks }
    ensures value { result ≡ overlapping shape.now rank }
    ensures few { result ≤ 64 }
{
    shape.valid();
    let mut clients = 0;
    for client in 0..shape.clients() {
        if overlaps(shape, rank, client) {
            clients += 1;
        }
    }
    clients
}

/// How many keys are marked.
fn total(counts: &[u32]) -> u64
    requires { length counts.now ≤ 1048576 }
    ensures value { result ≡ sum counts.now }
    ensures few { result ≤ 4503599627370496 }
{
    let mut total = 0;
    for &count in counts {
        total += count as u64;
    }
    total
}

/// The counts of a new rank.
fn counts_of(shape: &Shape, rank: u32, marks: &Marks) -> Counts
    requires rank_in { rank < shape.now.ranks }
    requires groups { marks.now.groups ≡ shape.now.groups }
    requires planes { marks.now.planes ≡ planes shape.now }
    ensures { result ≡ recut_counts shape.now rank (rows_of marks.now) }
{
    shape.valid();
    marks.valid();
    let accepted = total(marks.counts());
    let others = overlapping(shape, rank).saturating_sub(1);
    Counts {
        accepted,
        kept: accepted * others,
        replay: 0,
        stale: 0,
        repeated: 0,
        f1: 0,
        f2: 0,
        f3: 0,
        f4: 0,
        f5: 0,
        f6: 0,
    }
}

/// The list of a new rank.
fn recut_rank(
    alloc: Global,
    shape: &Shape,
    old: &Shape,
    rank: u32,
    marks: &Marks,
    parts: &[Vec<u8>],
) -> Result<Vec<u8>, NoMemory>
    requires rank_in { rank < shape.now.ranks }
    requires study { shape.now ≡ with_ranks old.now shape.now.ranks }
    requires groups { marks.now.groups ≡ shape.now.groups }
    requires planes { marks.now.planes ≡ planes shape.now }
    requires parts { AreLong old.now (lists_of parts.now) }
    ensures { IfOk result (λ bytes. bytes.items ≡ spelled_state 3 shape.now rank
        (recut_of shape.now old.now (rows_of marks.now) (lists_of parts.now) rank)) }
{
    let counts = counts_of(shape, rank, marks);
    let mut out = Put::new(alloc);
    put_head(shape, rank, &mut out)?;
    put_counts(&counts, &mut out)?;
    marks.put(&mut out)?;
    put_part(shape, old, parts, rank, &mut out)?;
    out.put_u32(0)?;
    Ok(out.finish())
}

/// Cuts the states of the old ranks anew: the list of bytes of each new rank, in rising rank. It has the marks that all
/// old ranks have, for each plane and cell the sums as they stand in the list of the cell's old rank, no pending pieces,
/// and the counts of the pieces that were accepted.
///
/// Each list is a checkpoint of the new rank and spells that state. A rank can go on from it.
///
/// `Differ` comes exactly where a rank's marks differ from those of rank 0: for the least such rank, then plane, then
/// group.
pub fn recut(
    alloc: Global,
    shape: &Shape,
    old: &Shape,
    files: &[Vec<u8>],
) -> Result<Vec<Vec<u8>>, RecutFault>
    requires study { shape.now ≡ with_ranks old.now shape.now.ranks }
    requires files { AreFiles old.now (lists_of files.now) }
    ensures ok { IfOk result (λ lists. Recuts shape.now old.now (lists_of files.now) (lists_of lists.items)) }
    ensures err { IfErr result (λ fault. Refuses old.now (lists_of files.now) fault) }
    ensures reads { OnOk result ((rank : ℕ) → rank < shape.now.ranks →
        checkpoint_of part_at shape.now rank (recut_bytes shape.now old.now (lists_of files.now) rank)
        ≡ Ok (recut_state shape.now old.now (lists_of files.now) rank)) }
    ensures openings { IfOk result (λ lists. AreOpenings part_at shape.now (lists_of lists.items)) }
{
    marks_are_tests();
    blocks_partition();
    rank_holds();
    saved_states_read_again();
    old.valid();
    shape.valid();
    let (marks, parts) = read_ranks(alloc, old, files)?;
    marks.valid();
    let mut lists = Vec::new(alloc);
    for rank in 0..shape.ranks() {
        let list = recut_rank(alloc, shape, old, rank, &marks, parts.as_slice())?;
        push(&mut lists, list)?;
    }
    Ok(lists)
}
