//! A rank that goes on from a list of bytes.

ghost use Rattle.std.specs.Prelude.{◌≡◌, ℕ, ◌^◌, ◌<◌, ◌≤◌, [], ◌∷◌, ◌++◌, List, Some, false, Ok, IsOk, IfOk, IfErr};
ghost use Rattle.mls_model.specs.Histories.{LaneEvent};
ghost use Rattle.mls_ckpt.specs.Checkpoints.{checkpoint_of};
ghost use Rattle.mls_rank.specs.Saving.{state_of};
ghost use Rattle.mls_rank.specs.Standing.{StandsFor};
ghost use Rattle.mls_book.specs.SavedRanks.{core_of, study_of, number_of, saved_of, opening_of, keeper_of, total_of, CarriesHistory, CountsFew};
ghost use Rattle.mls_resume.specs.Opening.{saved_event, IsOpening, OpensWith};

use crate::old_ranks::are_bytes;
use mls_base::outside::Keeper;
use mls_base::shape::Shape;
use mls_book::{Refused, SavedRank};
use mls_ckpt::RecoverFault;
use mls_ckpt::laws::states_are_spelled;
use mls_field::fold::RowFold;
use mls_rank::RankCore;
use std::alloc::Global;

/// The rank that goes on from the state that a list of bytes spells. This run had no save, and the keeper isn't called:
/// a crash before any save of this run goes back to that state. Want of memory hands the keeper back.
///
/// It carries each history that the state stands for, with a save behind it.
pub fn open_rank<F: RowFold, K: Keeper + Drop>(
    alloc: Global,
    shape: &Shape,
    rank: u32,
    bytes: Vec<u8>,
    keeper: K,
) -> Result<SavedRank<F, K>, Refused<K>>
    requires rank_in { rank < shape.now.ranks }
    requires spelled { IsOk (checkpoint_of F.part_at shape.now rank bytes.items) }
    ensures sizes { IfOk result (λ x. study_of x ≡ shape.now) }
    ensures rank { IfOk result (λ x. number_of x ≡ rank) }
    ensures state { IfOk result (λ x. checkpoint_of F.part_at shape.now rank bytes.items ≡ Ok (state_of (core_of x))) }
    ensures keeper { IfOk result (λ x. keeper_of x ≡ keeper) }
    ensures saved { IfOk result (λ x. saved_of x ≡ false) }
    ensures opening { IfOk result (λ x. opening_of x ≡ Some bytes.items) }
    ensures carries { IfOk result (λ x. (h : List LaneEvent) → StandsFor (core_of x) h →
        CarriesHistory x (h ++ saved_event ∷ []) []) }
    ensures goes_on { IfOk result (λ x. (before : List LaneEvent) →
        OpensWith F.RowFold shape.now rank bytes.items before → CarriesHistory x (before ++ saved_event ∷ []) []) }
    ensures few { (most : ℕ) → IsOpening F.part_at shape.now rank most bytes.items →
        IfOk result (λ x. CountsFew x most) }
    ensures total { IfOk result (λ x. total_of x ≤ 2 ^ 62) }
    ensures refused { IfErr result (λ refused. refused.keeper ≡ keeper) }
{
    states_are_spelled();
    F::part_laws();
    shape.valid();
    are_bytes(bytes.as_slice());
    match RankCore::recover(alloc, shape, rank, bytes.as_slice()) {
        Ok(core) => {
            core.valid();
            return Ok(SavedRank::opened(core, bytes, keeper));
        }
        Err(RecoverFault::Bad { .. }) => unreachable!(),
        Err(RecoverFault::Memory) => return Err(Refused { keeper }),
    }
}
