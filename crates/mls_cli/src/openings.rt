//! What the ranks of a resume go on from: the files of the old ranks, or the lists that are cut from them.

ghost use Rattle.std.specs.Prelude.{◌≡◌, ◌^◌, ◌<◌, ◌≤◌, ◌++◌, ◌∷◌, [], true, IfOk, IfErr, OnOk, vec_len};
ghost use Rattle.mls_base.specs.Shapes.{with_ranks};
ghost use Rattle.mls_ckpt.specs.CellParts.{part_at};
ghost use Rattle.mls_export.specs.Files.{seen};
ghost use Rattle.mls_resume.specs.Opening.{AreOpenings, IsOpening};
ghost use Rattle.mls_resume.specs.Reads.{lists_of};
ghost use Rattle.mls_cli.specs.Refusals.{Agrees, IsOfContent, Loads};
ghost use Rattle.mls_cli.specs.Resume.{content_opening, right_file, right_files, right_lists, right_old, right_openings};

use crate::loading::load;
use crate::refusal::Refusal;
use mls_base::outside::Files;
use mls_base::shape::Shape;
use mls_ckpt::RecoverFault;
use mls_ckpt::laws::numbers_read_again;
use mls_export::file_name;
use mls_result::FileRole;
use mls_resume::{RecutFault, check_opening, recut};
use std::alloc::Global;

/// The most bytes of the file of a rank.
const CHECKPOINT_LIMIT: u64 = 1_073_741_824;

/// The study's numbers with the old number of ranks.
fn old_shape(shape: &Shape, ranks: u32) -> Result<Shape, Refusal>
    ensures right { Agrees true (λ s. s) result (right_old shape.now ranks) }
    ensures old { IfOk result (λ old. old ≡ with_ranks shape.now ranks) }
    ensures content { IfErr result IsOfContent }
{
    shape.valid();
    match shape.with_ranks(ranks) {
        Some(old) => return Ok(old),
        None => return Err(Refusal::OldRanks { ranks }),
    }
}

/// These bytes, where an old rank can go on from them.
fn checked(alloc: Global, old: &Shape, rank: u32, bytes: Vec<u8>) -> Result<Vec<u8>, Refusal>
    requires { rank < old.now.ranks }
    ensures right { Agrees true (λ b. b.items) result (content_opening old.now rank bytes.items) }
    ensures opening { IfOk result (λ b. IsOpening part_at old.now rank (2 ^ 61) b.items) }
    ensures content { IfErr result IsOfContent }
{
    numbers_read_again();
    match check_opening(alloc, old, rank, bytes.as_slice()) {
        Ok(()) => return Ok(bytes),
        Err(RecoverFault::Bad { at, why }) => return Err(Refusal::CheckpointBad { rank, at, why }),
        Err(RecoverFault::Memory) => return Err(Refusal::Memory),
    }
}

/// The bytes of the file of an old rank.
fn load_file<F: Files>(
    alloc: Global,
    files: &mut F,
    old: &Shape,
    prefix: &str,
    rank: u32,
) -> Result<Vec<u8>, Refusal>
    requires { rank < old.now.ranks }
    ensures loads { Loads (λ b. b.items) (λ held. right_file old.now prefix.now held rank)
        (seen F.held F.sound F.load_faults F.save_faults files.old)
        (seen F.held F.sound F.load_faults F.save_faults files.new) result }
    ensures opening { IfOk result (λ b. IsOpening part_at old.now rank (2 ^ 61) b.items) }
{
    let Ok(name) = file_name(alloc, prefix, rank) else {
        return Err(Refusal::Memory);
    };
    let bytes = load(
        alloc,
        files,
        name.as_str(),
        CHECKPOINT_LIMIT,
        FileRole::Checkpoint,
    )?;
    checked(alloc, old, rank, bytes)
}

/// Puts a list of bytes behind others.
fn keep(lists: &mut Vec<Vec<u8>>, bytes: Vec<u8>) -> Result<(), Refusal>
    ensures ok { OnOk result (lists_of lists.new.items ≡ lists_of lists.old.items ++ bytes.items ∷ []) }
    ensures err { IfErr result (λ refusal. refusal ≡ Refusal.Memory) }
{
    match lists.push(bytes) {
        Ok(()) => return Ok(()),
        Err(_) => return Err(Refusal::Memory),
    }
}

/// The bytes of the files of the old ranks, in rising rank: each is checked before the next is loaded.
fn load_files<F: Files>(
    alloc: Global,
    files: &mut F,
    old: &Shape,
    prefix: &str,
) -> Result<Vec<Vec<u8>>, Refusal>
    ensures loads { Loads (λ lists. lists_of lists.items)
        (λ held. right_files old.now prefix.now held old.now.ranks)
        (seen F.held F.sound F.load_faults F.save_faults files.old)
        (seen F.held F.sound F.load_faults F.save_faults files.new) result }
    ensures openings { IfOk result (λ lists. AreOpenings part_at old.now (lists_of lists.items)) }
{
    let mut lists = Vec::new(alloc);
    for rank in 0..old.ranks() {
        let bytes = load_file(alloc, files, old, prefix, rank)?;
        keep(&mut lists, bytes)?;
    }
    Ok(lists)
}

/// The lists of the study's ranks: the old ranks' own, where there are as many, else those that are cut from them.
fn cut(
    alloc: Global,
    shape: &Shape,
    old: &Shape,
    files: Vec<Vec<u8>>,
) -> Result<Vec<Vec<u8>>, Refusal>
    requires old { old.now ≡ with_ranks shape.now old.now.ranks }
    requires files { AreOpenings part_at old.now (lists_of files.items) }
    ensures right { Agrees true (λ lists. lists_of lists.items) result
        (right_lists shape.now old.now (lists_of files.items)) }
    ensures openings { IfOk result (λ lists. AreOpenings part_at shape.now (lists_of lists.items)) }
    ensures content { IfErr result IsOfContent }
{
    if old.ranks() == shape.ranks() {
        return Ok(files);
    }
    match recut(alloc, shape, old, files.as_slice()) {
        Ok(lists) => return Ok(lists),
        Err(
            RecutFault::Differ {
                other,
                plane,
                group,
                first_has,
            },
        ) => {
            return Err(Refusal::MarksDiffer {
                other,
                plane,
                group,
                first_has,
            });
        }
        Err(RecutFault::Memory) => return Err(Refusal::Memory),
    }
}

/// What the ranks of a study go on from, of the files of so many old ranks whose names begin with the prefix.
pub(crate) fn load_openings<F: Files>(
    alloc: Global,
    files: &mut F,
    shape: &Shape,
    ranks: u32,
    prefix: &str,
) -> Result<Vec<Vec<u8>>, Refusal>
    ensures loads { Loads (λ lists. lists_of lists.items) (right_openings shape.now ranks prefix.now)
        (seen F.held F.sound F.load_faults F.save_faults files.old)
        (seen F.held F.sound F.load_faults F.save_faults files.new) result }
    ensures openings { IfOk result (λ lists. AreOpenings part_at shape.now (lists_of lists.items)) }
{
    let old = old_shape(shape, ranks)?;
    let lists = load_files(alloc, files, &old, prefix)?;
    cut(alloc, shape, &old, lists)
}
