//! The core of a rank with its keeper, and the one place of the rules of saves and crashes.
//!
//! A save puts the checkpoint of the core's state into the keeper. A crash goes back to the state of the last save of
//! this run. Where this run had no save it goes back to the state at the beginning, and the keeper isn't called: to no
//! events, or to the state that bytes spell which were given at the beginning.

ghost use Rattle.std.specs.Prelude.{◌≡◌, ◌<◌, ◌≤◌, ◌+◌, ◌-◌, ◌^◌, max, ℕ, Bool, true, false, ◌&&◌, ◌||◌, cond, List, [], ◌∷◌, ◌++◌, length, Option, None, Some, Ok, IsTrue, IsOk, IfOk, IfErr, IfSome, OnOk, OnErr, MatchResult, IsSome};
ghost use Rattle.std.specs.Option.{option_map};
ghost use Rattle.std.proofs.Props.{props};
ghost use Rattle.mls_base.specs.Told.{raised, replaced, GetLeaves, CountsStore, StaysSound, SoundStore};
ghost use Rattle.mls_model.specs.Histories.{LaneEvent};
ghost use Rattle.mls_model.specs.Survival.{is_save, is_crash, before_last_save};
ghost use Rattle.mls_model.specs.Outcomes.{total_count};
ghost use Rattle.mls_ckpt.specs.Checkpoints.{checkpoint_of};
ghost use Rattle.mls_ckpt.specs.Reading.{Refuses};
ghost use Rattle.mls_frame.specs.Views.{frame_of};
ghost use Rattle.mls_rank.specs.Cores.{sizes_of, rank_of, counts_of, IsSame};
ghost use Rattle.mls_rank.specs.Counting.{no_counts, is_idle, is_saved, is_crashed};
ghost use Rattle.mls_rank.specs.Saving.{state_of, SpellsCore, RecoversSaved};
ghost use Rattle.mls_rank.specs.Standing.{StandsFor, StandsOn, IsOutcome, as_event, IsPart};
ghost use Rattle.mls_book.specs.declared.faults.BookFault.TheVariants.{Memory};
ghost use Rattle.mls_book.specs.Faults.{Leaves, CountsFaults, SoundFault, HasCause, IfBad};
ghost use Rattle.mls_book.specs.Backups.{written_of, IsCheckpoint, IsSpelled, given_state, gets_after, Begins, GoesBack};

use crate::faults::{BookFault, Refused};
use mls_base::faults::{NoMemory, StoreFault};
use mls_base::outside::Keeper;
use mls_base::shape::Shape;
use mls_ckpt::{CkptWhy, RecoverFault};
use mls_field::fold::RowFold;
use mls_frame::FrameView;
use mls_model::lanes::LaneKind;
use mls_model::outcomes::Outcome;
use mls_rank::RankCore;
use std::alloc::Global;

/// Whether an outcome is a save.
fn saves(outcome: Outcome) -> bool
    ensures value { result ≡ is_saved outcome }
    ensures idle { IsTrue result → is_idle outcome ≡ true }
{
    match outcome {
        Outcome::Save => true,
        _ => false,
    }
}

/// Whether an outcome is a crash.
fn crashes(outcome: Outcome) -> bool
    ensures value { result ≡ is_crashed outcome }
    ensures idle { IsTrue result → is_idle outcome ≡ true }
{
    match outcome {
        Outcome::Crash => true,
        _ => false,
    }
}

/// The core of the state that a keeper's bytes spell. Nothing is `Absent` at 0.
fn recovered<F: RowFold>(
    alloc: Global,
    given: Option<Vec<u8>>,
    shape: &Shape,
    rank: u32,
) -> Result<RankCore<F>, RecoverFault>
    requires { rank < shape.now.ranks }
    ensures sizes { IfOk result (λ core. sizes_of core ≡ shape.now) }
    ensures rank { IfOk result (λ core. rank_of core ≡ rank) }
    ensures few { IfOk result (λ core. total_count (counts_of core) ≤ 2 ^ 62) }
    ensures again { IfSome given (λ bytes. RecoversSaved shape.now rank bytes.items result) }
    ensures read { IfOk result (λ core.
        given_state F.part_at shape.now rank (option_map (λ bytes. bytes.items) given) ≡ Ok (state_of core)) }
    ensures fault { IfErr result (λ fault.
        Refuses fault (given_state F.part_at shape.now rank (option_map (λ bytes. bytes.items) given))) }
{
    match given {
        None => {
            return Err(RecoverFault::Bad {
                at: 0,
                why: CkptWhy::Absent,
            });
        }
        Some(bytes) => return RankCore::recover(alloc, shape, rank, bytes.as_slice()),
    }
}

/// The core of one rank with its keeper, whether this run had a save, and the bytes of the state at the beginning,
/// where that isn't the empty one.
#[derive(Drop)]
pub struct SavedRank<F: RowFold, K: Keeper + Drop> {
    core: RankCore<F>,
    keeper: K,
    saved: bool,
    opening: Option<Vec<u8>>,
    ghost opens: { IfSome opening (λ bytes. IsOk (checkpoint_of F.part_at (sizes_of core) (rank_of core) bytes.items)) } by { Prim.hlevel props },
}

impl<F: RowFold, K: Keeper + Drop> SavedRank<F, K> {
    ghost use Rattle.mls_book.specs.SavedRanks.{core_of, study_of, number_of, total_of, saved_of, opening_of};
    ghost use Rattle.mls_book.specs.SavedRanks.{keeper_of, held_of, faults_of, gets_of, last_of, sound_of};
    ghost use Rattle.mls_book.specs.SavedRanks.{reads_keeper, calls_keeper, TakesMemory};
    ghost use Rattle.mls_book.specs.SavedRanks.{IsGiven, IsRefused, IsUnspelled, CarriesHistory, CarriesMore, CountsFew};

    /// The state before any event. This run had no save, and the keeper isn't called.
    pub fn new(
        alloc: Global,
        shape: &Shape,
        rank: u32,
        keeper: K,
    ) -> Result<SavedRank<F, K>, Refused<K>>
        requires { rank < shape.now.ranks }
        ensures sizes { IfOk result (λ x. study_of x ≡ shape.now) }
        ensures rank { IfOk result (λ x. number_of x ≡ rank) }
        ensures counts { IfOk result (λ x. counts_of (core_of x) ≡ no_counts) }
        ensures keeper { IfOk result (λ x. keeper_of x ≡ keeper) }
        ensures saved { IfOk result (λ x. saved_of x ≡ false) }
        ensures opening { IfOk result (λ x. opening_of x ≡ None) }
        ensures carries { IfOk result (λ x. CarriesHistory x [] []) }
        ensures few { IfOk result (λ x. CountsFew x 0) }
        ensures refused { IfErr result (λ refused. refused.keeper ≡ keeper) }
    {
        match RankCore::new(alloc, shape, rank) {
            Ok(core) => {
                return Ok(SavedRank {
                    core,
                    keeper,
                    saved: false,
                    opening: None,
                });
            }
            Err(_) => return Err(Refused { keeper }),
        }
    }

    /// The state of a core that a checkpoint spells. A crash before any save of this run goes back to it. This run had no
    /// save, and the keeper isn't called. The history that is carried ends with the save whose checkpoint it is.
    pub fn opened(core: RankCore<F>, opening: Vec<u8>, keeper: K) -> SavedRank<F, K>
        requires { checkpoint_of F.part_at (sizes_of core) (rank_of core) opening.items ≡ Ok (state_of core) }
        ensures core { core_of result ≡ core }
        ensures keeper { keeper_of result ≡ keeper }
        ensures saved { saved_of result ≡ false }
        ensures opening { opening_of result ≡ Some opening.items }
        ensures carries { SpellsCore (sizes_of core) (rank_of core) opening.items core → (whole : List LaneEvent)
            → StandsFor core (before_last_save whole) → StandsFor core whole → CarriesHistory result whole [] }
        ensures few { SpellsCore (sizes_of core) (rank_of core) opening.items core
            → CountsFew result (total_count (counts_of core)) }
    {
        SavedRank {
            core,
            keeper,
            saved: false,
            opening: Some(opening),
        }
    }

    /// The core.
    pub fn core(&self) -> &RankCore<F>
        ensures { result.now ≡ core_of self.now }
    {
        &self.core
    }

    /// The keeper.
    pub fn keeper(&self) -> &K
        ensures { result.now ≡ keeper_of self.now }
    {
        &self.keeper
    }

    /// Whether this run had a save.
    pub fn had_save(&self) -> bool
        ensures { result ≡ saved_of self.now }
    {
        self.saved
    }

    /// The core and the keeper.
    pub fn into_parts(self) -> (RankCore<F>, K)
        ensures core { result.0 ≡ core_of self }
        ensures keeper { result.1 ≡ keeper_of self }
    {
        (self.core, self.keeper)
    }

    /// The core's step.
    fn step(&mut self, kind: LaneKind, view: &FrameView<'_>) -> Result<Outcome, BookFault>
        requires room { total_of self.old < 2 ^ 64 - 1 }
        ensures outcome { IfOk result (λ o. IsOutcome (core_of self.old) (as_event kind (frame_of view.now)) o) }
        ensures stands { OnOk result
            (StandsOn (core_of self.old) (core_of self.new) (as_event kind (frame_of view.now))) }
        ensures err { OnErr result
            ((h : List LaneEvent) → StandsFor (core_of self.old) h → StandsFor (core_of self.new) h) }
        ensures same { OnErr result (IsSame (core_of self.old) (core_of self.new)) }
        ensures fault { IfErr result (λ fault. fault ≡ Memory) }
        ensures needs { OnErr result (IsPart (study_of self.old) (number_of self.old) kind (frame_of view.now)) }
        ensures sizes { study_of self.new ≡ study_of self.old }
        ensures rank { number_of self.new ≡ number_of self.old }
        ensures sum { total_of self.new ≤ total_of self.old + 1 }
        ensures saves { IfOk result (λ o. is_saved o ≡ is_save (as_event kind (frame_of view.now))) }
        ensures crashes { IfOk result (λ o. is_crashed o ≡ is_crash (as_event kind (frame_of view.now))) }
        ensures idle { IfOk result (λ o. is_idle o ≡ true → core_of self.new ≡ core_of self.old) }
        ensures keeper { keeper_of self.new ≡ keeper_of self.old }
        ensures saved { saved_of self.new ≡ saved_of self.old }
        ensures opening { opening_of self.new ≡ opening_of self.old }
    {
        self.core.valid();
        match self.core.step(kind, view) {
            Ok(outcome) => return Ok(outcome),
            Err(_) => {
                self.core.valid();
                return Err(BookFault::Memory);
            }
        }
    }

    /// Puts the checkpoint of the core's state into the keeper.
    fn save(&mut self, alloc: Global) -> Result<(), StoreFault>
        ensures core { core_of self.new ≡ core_of self.old }
        ensures opening { opening_of self.new ≡ opening_of self.old }
        ensures saved { OnOk result (saved_of self.new ≡ true) }
        ensures unsaved { OnErr result (saved_of self.new ≡ saved_of self.old) }
        ensures put { OnOk result
            (held_of self.new ≡ replaced (held_of self.old) (Some (written_of (core_of self.old)))) }
        ensures written { OnOk result (IsCheckpoint (core_of self.old)) }
        ensures spells { OnOk result (IsSpelled (core_of self.old)) }
        ensures held { IfErr result (λ fault. GetLeaves fault (held_of self.old) (held_of self.new)) }
        ensures gets { gets_of self.new ≡ gets_of self.old }
        ensures last { last_of self.new ≡ last_of self.old }
        ensures faults { CountsStore result (faults_of self.old) (faults_of self.new) }
        ensures sound { StaysSound (sound_of self.old) (sound_of self.new) }
        ensures surely { IfErr result (λ fault. SoundStore fault (sound_of self.old)) }
    {
        let bytes = match self.core.save_bytes(alloc) {
            Ok(bytes) => bytes,
            Err(_) => return Err(StoreFault::Memory),
        };
        match self.keeper.put(bytes) {
            Ok(()) => {
                self.saved = true;
                return Ok(());
            }
            Err(_) => return Err(StoreFault::Failed),
        }
    }

    /// Goes back to the state at the beginning. The keeper isn't called.
    fn reopen(&mut self, alloc: Global) -> Result<(), NoMemory>
        ensures sizes { study_of self.new ≡ study_of self.old }
        ensures rank { number_of self.new ≡ number_of self.old }
        ensures begins { OnOk result
            (Begins (study_of self.old) (number_of self.old) (opening_of self.old) (core_of self.new)) }
        ensures few { OnOk result (total_of self.new ≤ 2 ^ 62) }
        ensures err { OnErr result (core_of self.new ≡ core_of self.old) }
        ensures needs { OnErr result (IsSome (opening_of self.old)) }
        ensures keeper { keeper_of self.new ≡ keeper_of self.old }
        ensures saved { saved_of self.new ≡ saved_of self.old }
        ensures opening { opening_of self.new ≡ opening_of self.old }
    {
        let shape = self.core.shape();
        let rank = self.core.rank();
        match &self.opening {
            None => {
                self.core.reset();
                return Ok(());
            }
            Some(bytes) => match RankCore::recover(alloc, &shape, rank, bytes.as_slice()) {
                Ok(core) => {
                    self.core = core;
                    return Ok(());
                }
                Err(RecoverFault::Bad { .. }) => unreachable!(),
                Err(RecoverFault::Memory) => return Err(NoMemory),
            },
        }
    }

    /// Goes back to the state of the last save, which the keeper gives.
    fn restore(&mut self, alloc: Global) -> Result<(), BookFault>
        ensures sizes { study_of self.new ≡ study_of self.old }
        ensures rank { number_of self.new ≡ number_of self.old }
        ensures few { OnOk result (total_of self.new ≤ 2 ^ 62) }
        ensures back { OnOk result
            (GoesBack (study_of self.old) (number_of self.old) (held_of self.old) (core_of self.new)) }
        ensures err { OnErr result (core_of self.new ≡ core_of self.old) }
        ensures saved { saved_of self.new ≡ saved_of self.old }
        ensures opening { opening_of self.new ≡ opening_of self.old }
        ensures held { OnOk result (held_of self.new ≡ held_of self.old) }
        ensures leaves { IfErr result (λ fault. Leaves fault (held_of self.old) (held_of self.new)) }
        ensures gets { gets_of self.new ≡ raised (gets_of self.old) }
        ensures faults { CountsFaults result (faults_of self.old) (faults_of self.new) }
        ensures sound { StaysSound (sound_of self.old) (sound_of self.new) }
        ensures surely { IfErr result (λ fault. SoundFault fault (sound_of self.old)) }
        ensures good { IfErr result (λ fault. IfBad fault (IsUnspelled self.old)) }
        ensures given { OnOk result (IsGiven self.old self.new) }
        ensures refused { IfErr result (λ fault. IfBad fault (IsRefused fault self.old self.new)) }
    {
        let shape = self.core.shape();
        let rank = self.core.rank();
        match self.keeper.get(alloc) {
            Ok(given) => match recovered(alloc, given, &shape, rank) {
                Ok(saved) => {
                    self.core = saved;
                    return Ok(());
                }
                Err(RecoverFault::Bad { at, why }) => {
                    return Err(BookFault::CheckpointBad { at, why });
                }
                Err(RecoverFault::Memory) => return Err(BookFault::Memory),
            },
            Err(StoreFault::Failed) => return Err(BookFault::KeeperFault),
            Err(StoreFault::Memory) => return Err(BookFault::Memory),
        }
    }

    /// Takes an event of a lane of this kind and says what becomes of it: the core's step, and then the store.
    ///
    /// A save on a control lane puts the checkpoint of the core's state into the keeper. A crash on a control lane goes
    /// back to the state of the last save of this run, which the keeper gives; where this run had no save it goes back
    /// to the state at the beginning, and the keeper isn't called. After each fault the rank is as before, but that a
    /// keeper whose call failed may cease to tell.
    ///
    /// `whole` is the whole history, and `run` the events of this run at its end; a rank that began with no events has
    /// one history for both.
    pub fn take(
        &mut self,
        alloc: Global,
        kind: LaneKind,
        view: &FrameView<'_>,
    ) -> Result<Outcome, BookFault>
        requires room { total_of self.old < 2 ^ 64 - 1 }

        // What is carried.
        ensures outcome { IfOk result (λ o. IsOutcome (core_of self.old) (as_event kind (frame_of view.now)) o) }
        ensures carries { (whole run : List LaneEvent) → length whole ≤ 2 ^ 62 → CarriesHistory self.old whole run
            → OnOk result (CarriesMore self.new whole run (as_event kind (frame_of view.now))) }
        ensures keeps { (whole run : List LaneEvent) → CarriesHistory self.old whole run
            → OnErr result (CarriesHistory self.new whole run) }
        ensures untold { (whole run : List LaneEvent) → CarriesHistory self.old whole run
            → IfErr result (λ fault. IfBad fault (held_of self.old ≡ None)) }

        ensures counts { (most : ℕ) → most ≤ 2 ^ 62 → CountsFew self.old most
            → OnOk result (CountsFew self.new (most + 1)) }
        ensures fewer { (most : ℕ) → CountsFew self.old most → OnErr result (CountsFew self.new most) }
        ensures untold_few { (most : ℕ) → CountsFew self.old most
            → IfErr result (λ fault. IfBad fault (held_of self.old ≡ None)) }

        // What holds of every core.
        ensures stands { OnOk result
            (StandsOn (core_of self.old) (core_of self.new) (as_event kind (frame_of view.now))) }
        ensures err { OnErr result
            ((h : List LaneEvent) → StandsFor (core_of self.old) h → StandsFor (core_of self.new) h) }
        ensures same { OnErr result (IsSame (core_of self.old) (core_of self.new)) }
        ensures sizes { study_of self.new ≡ study_of self.old }
        ensures rank { number_of self.new ≡ number_of self.old }
        ensures sum { total_of self.new ≤ max (2 ^ 62) (total_of self.old + 1) }
        ensures saved { OnOk result
            (saved_of self.new ≡ (saved_of self.old || is_save (as_event kind (frame_of view.now)))) }
        ensures unsaved { OnErr result (saved_of self.new ≡ saved_of self.old) }
        ensures opening { opening_of self.new ≡ opening_of self.old }
        ensures reopens { is_crash (as_event kind (frame_of view.now)) ≡ true → saved_of self.old ≡ false → OnOk result
            (Begins (study_of self.old) (number_of self.old) (opening_of self.old) (core_of self.new)) }
        ensures goes_back { reads_keeper (saved_of self.old) (as_event kind (frame_of view.now)) ≡ true → OnOk result
            (GoesBack (study_of self.old) (number_of self.old) (held_of self.old) (core_of self.new)) }

        // What is asked of the keeper, and what it then holds.
        ensures untouched { calls_keeper (saved_of self.old) (as_event kind (frame_of view.now)) ≡ false
            → keeper_of self.new ≡ keeper_of self.old }
        ensures put { is_save (as_event kind (frame_of view.now)) ≡ true
            → OnOk result (held_of self.new ≡ replaced (held_of self.old) (Some (written_of (core_of self.new)))) }
        ensures held { is_save (as_event kind (frame_of view.now)) ≡ false
            → OnOk result (held_of self.new ≡ held_of self.old) }
        ensures leaves { IfErr result (λ fault. Leaves fault (held_of self.old) (held_of self.new)) }
        ensures gets { OnOk result (gets_of self.new
            ≡ gets_after (reads_keeper (saved_of self.old) (as_event kind (frame_of view.now))) (gets_of self.old)) }
        ensures given { OnOk result
            (reads_keeper (saved_of self.old) (as_event kind (frame_of view.now)) ≡ true → IsGiven self.old self.new) }
        ensures sound { StaysSound (sound_of self.old) (sound_of self.new) }

        // What a fault says.
        ensures faults { CountsFaults result (faults_of self.old) (faults_of self.new) }
        ensures surely { IfErr result (λ fault. SoundFault fault (sound_of self.old)) }
        ensures cause { IfErr result (λ fault. HasCause fault
            (calls_keeper (saved_of self.old) (as_event kind (frame_of view.now)))
            (reads_keeper (saved_of self.old) (as_event kind (frame_of view.now)))) }
        ensures got { IfErr result (λ fault. IfBad fault (gets_of self.new ≡ raised (gets_of self.old))) }
        ensures refused { IfErr result (λ fault. IfBad fault (IsRefused fault self.old self.new)) }
        ensures needs { OnErr result (TakesMemory self.old (as_event kind (frame_of view.now))) }
    {
        let outcome = self.step(kind, view)?;
        if saves(outcome) {
            match self.save(alloc) {
                Ok(()) => return Ok(outcome),
                Err(StoreFault::Failed) => return Err(BookFault::KeeperFault),
                Err(StoreFault::Memory) => return Err(BookFault::Memory),
            }
        }
        if !crashes(outcome) {
            return Ok(outcome);
        }
        let had_save = self.saved;
        if had_save {
            match self.restore(alloc) {
                Ok(()) => {
                    self.core.after_crash();
                    return Ok(outcome);
                }
                Err(fault) => return Err(fault),
            }
        }
        match self.reopen(alloc) {
            Ok(()) => {
                self.core.after_crash();
                return Ok(outcome);
            }
            Err(_) => return Err(BookFault::Memory),
        }
    }
}
