//! A keeper over two areas of a disk. A put goes to the slot that isn't the current one; its gate is closed before
//! anything is written behind it and opened after that is on the disk.

ghost use Rattle.std.specs.Prelude.{◌≡◌, ℕ, ◌<◌, take, drop, true, false, [], ◌∷◌, ◌++◌, List, None, Option, Some, IsTrue, IfOk, IfErr, IfSome, OnOk, OnErr, MatchResult};
ghost use Rattle.std.specs.Option.{option_map};
ghost use Rattle.std.proofs.Props.{props};
ghost use Rattle.mls_base.specs.Told.{Rose, raised, replaced, MayCease, GetLeaves, CountsStore};
ghost use Rattle.mls_slot.specs.Slots.{head_length, value};
ghost use Rattle.mls_slot.specs.Disks.{Areas, IsLeft, IsAtRest};
ghost use Rattle.mls_slot.specs.WholeRuns.{CrashInPut, CrashInGet, Gives};
ghost use Rattle.mls_slot.specs.Runs.{LeavesOnly, Knows, IsOneOf, GivesOnly, SameSeen, FaultedBy, TellsAfter};

use crate::disk::Disk;
use crate::disk_calls::{begin, store};
use crate::heads::{HEAD_LENGTH, Heads};
use mls_base::faults::{Failed, StoreFault};
use mls_base::outside::Keeper;
use std::alloc::Global;

/// A keeper of one checkpoint, whose every put survives a crash at any moment once it answered `Ok`. It is never
/// sound, since a disk may fail where memory is wanted.
#[derive(Drop)]
pub struct SlotKeeper<D: Disk + Drop> {
    disk: D,
    begun: Option<Heads>,
    faulted: bool,
    gets: u64,
    ghost knows: { IsTrue (D.tells disk) → IfSome begun (λ heads. Knows heads (D.view disk)) } by { Prim.hlevel props },
}

impl<D: Disk + Drop> SlotKeeper<D> {
    ghost use Rattle.mls_slot.specs.Keepers.{told_value, disk_of};

    /// A keeper over a disk. It calls nothing and takes no memory.
    pub fn new(disk: D) -> SlotKeeper<D>
        ensures disk { disk_of result ≡ disk }
        ensures held { ⟦<SlotKeeper<D> as Keeper>⟧.held result ≡ told_value (D.tells disk) false (D.view disk).seen }
        ensures gets { ⟦<SlotKeeper<D> as Keeper>⟧.gets result ≡ 0 }
        // A keeper over an empty disk gives nothing.
        ensures empty { IsAtRest (D.view disk) → ((area : ℕ) → area < 2 → (D.view disk).seen area ≡ []) → GivesOnly (D.view result.disk) (None ∷ []) }
        // A keeper over what a crash left gives what that stands for.
        ensures left { (image : Areas) (values : List (Option (List ℕ))) → IsAtRest (D.view disk) → ((area : ℕ) → area < 2 → (D.view disk).seen area ≡ image area) → IsOneOf (value image) values → GivesOnly (D.view result.disk) values }
    {
        SlotKeeper {
            disk,
            begun: None,
            faulted: false,
            gets: 0,
        }
    }

    /// The disk.
    pub fn disk(&self) -> &D
        ensures { result.now ≡ disk_of self.now }
    {
        &self.disk
    }

    /// What is known of the areas. Where nothing is known, both are synced and looked at.
    fn heads(&mut self) -> Result<Heads, Failed>
        ensures knows { IfOk result (λ heads. IsTrue (D.tells self.new.disk) → Knows heads (D.view self.new.disk)) }
        ensures seen { OnOk result (IsTrue (D.tells self.old.disk) → SameSeen (D.view self.old.disk) (D.view self.new.disk)) }
        ensures moments { IsTrue (D.tells self.new.disk) → LeavesOnly (D.view self.old.disk) (D.view self.new.disk) (IsLeft (D.view self.old.disk)) }
        ensures faulted { MatchResult result (λ _. self.new.faulted ≡ self.old.faulted) (λ _. self.new.faulted ≡ true) }
        ensures gets { self.new.gets ≡ self.old.gets }
        ensures tells { OnOk result (D.tells self.new.disk ≡ D.tells self.old.disk) }
        ensures ceased { OnErr result (IsTrue (D.tells self.new.disk) → IsTrue (D.tells self.old.disk)) }
        ensures faultless { OnOk result (D.faults self.new.disk ≡ D.faults self.old.disk) }
        ensures rose { OnErr result (Rose (D.faults self.old.disk) (D.faults self.new.disk)) }
    {
        if let Some(heads) = self.begun {
            return Ok(heads);
        }
        match begin(&mut self.disk) {
            Ok(heads) => {
                self.begun = Some(heads);
                Ok(heads)
            }
            Err(Failed) => {
                self.faulted = true;
                Err(Failed)
            }
        }
    }

    /// The first bytes of an area's payload.
    fn payload(&mut self, alloc: Global, area: u32, length: u64) -> Result<Vec<u8>, StoreFault>
        requires { area < 2 }
        ensures bytes { IfOk result (λ bytes. IsTrue (D.tells self.old.disk) → bytes.items ≡ take length (drop head_length ((D.view self.old.disk).seen area))) }
        ensures same { IsTrue (D.tells self.new.disk) → IsTrue (D.tells self.old.disk) → SameSeen (D.view self.old.disk) (D.view self.new.disk) }
        ensures moments { IsTrue (D.tells self.new.disk) → LeavesOnly (D.view self.old.disk) (D.view self.new.disk) (IsLeft (D.view self.old.disk)) }
        ensures ceased { IsTrue (D.tells self.new.disk) → IsTrue (D.tells self.old.disk) }
        ensures faulted { MatchResult result (λ _. self.new.faulted ≡ self.old.faulted) (λ fault. FaultedBy fault self.old.faulted self.new.faulted) }
        ensures gets { self.new.gets ≡ self.old.gets }
        ensures tells { MatchResult result (λ _. D.tells self.new.disk ≡ D.tells self.old.disk) (λ fault. TellsAfter fault (D.tells self.old.disk) (D.tells self.new.disk)) }
        ensures faults { CountsStore result (D.faults self.old.disk) (D.faults self.new.disk) }
    {
        let mut bytes = vec![in alloc; 0u8; length as usize]?;
        match self.disk.read(area, HEAD_LENGTH as u64, &mut bytes) {
            Ok(n) => {
                bytes.truncate(n);
                Ok(bytes)
            }
            Err(Failed) => {
                self.begun = None;
                self.faulted = true;
                Err(StoreFault::Failed)
            }
        }
    }
}

impl<D: Disk + Drop> Keeper for SlotKeeper<D> {
    ghost use Rattle.mls_slot.specs.Keepers.{told_value};

    ghost faults = { λ k. D.faults k.disk };

    ghost sound = { λ k. false };

    ghost held = { λ k. told_value (D.tells k.disk) k.faulted (D.view k.disk).seen };

    ghost gets = { λ k. k.gets };

    ghost last_get = { λ k. None };

    /// Keeps these bytes from now on.
    fn put(&mut self, bytes: Vec<u8>) -> Result<(), Failed>
        // A crash at any moment of the call leaves what was to be given before it, or these bytes.
        ensures moments { IsTrue (D.tells self.new.disk) → CrashInPut bytes.items (D.view self.old.disk) (D.view self.new.disk) }
        // Where no slot is whole the put goes to slot 0.
        ensures first { OnOk result (IsTrue (D.tells self.old.disk) → value (D.view self.old.disk).seen ≡ None → (D.view self.new.disk).seen 1 ≡ (D.view self.old.disk).seen 1) }
        // After Ok each crash leaves these bytes.
        ensures acknowledged { OnOk result (IsTrue (D.tells self.old.disk) → GivesOnly (D.view self.new.disk) (Some bytes.items ∷ [])) }
        ensures held { OnOk result (⟦<SlotKeeper<D> as Keeper>⟧.held self.new ≡ replaced (⟦<SlotKeeper<D> as Keeper>⟧.held self.old) (Some bytes.items)) }
        ensures ceased { OnErr result (MayCease (⟦<SlotKeeper<D> as Keeper>⟧.held self.old) (⟦<SlotKeeper<D> as Keeper>⟧.held self.new)) }
        ensures faultless { OnOk result (⟦<SlotKeeper<D> as Keeper>⟧.faults self.new ≡ ⟦<SlotKeeper<D> as Keeper>⟧.faults self.old) }
        ensures rose { OnErr result (Rose (⟦<SlotKeeper<D> as Keeper>⟧.faults self.old) (⟦<SlotKeeper<D> as Keeper>⟧.faults self.new)) }
        ensures gets { ⟦<SlotKeeper<D> as Keeper>⟧.gets self.new ≡ ⟦<SlotKeeper<D> as Keeper>⟧.gets self.old }
        ensures last { ⟦<SlotKeeper<D> as Keeper>⟧.last_get self.new ≡ ⟦<SlotKeeper<D> as Keeper>⟧.last_get self.old }
    {
        let heads = self.heads()?;
        self.begun = None; // Until all is written nothing is known.
        match store(&mut self.disk, heads, &bytes) {
            Ok(heads) => {
                self.begun = Some(heads);
                Ok(())
            }
            Err(Failed) => {
                self.faulted = true;
                Err(Failed)
            }
        }
    }

    /// The bytes that are kept, or None where nothing is.
    fn get(&mut self, alloc: Global) -> Result<Option<Vec<u8>>, StoreFault>
        // A crash at any moment of the call leaves what was to be given before it.
        ensures moments { IsTrue (D.tells self.new.disk) → CrashInGet (D.view self.old.disk) (D.view self.new.disk) }
        // What is given is what a crash might have left, after a fault too.
        ensures gives { IfOk result (λ given. IsTrue (D.tells self.old.disk) → Gives (option_map (λ bytes. bytes.items) given) (D.view self.old.disk)) }
        // From then on a crash gives this too.
        ensures leaves { IfOk result (λ given. IsTrue (D.tells self.old.disk) → GivesOnly (D.view self.new.disk) (option_map (λ bytes. bytes.items) given ∷ [])) }
        ensures given { IfOk result (λ given. IfSome (⟦<SlotKeeper<D> as Keeper>⟧.held self.old) (λ kept. kept ≡ option_map (λ bytes. bytes.items) given)) }
        ensures held { MatchResult result (λ _. ⟦<SlotKeeper<D> as Keeper>⟧.held self.new ≡ ⟦<SlotKeeper<D> as Keeper>⟧.held self.old) (λ fault. GetLeaves fault (⟦<SlotKeeper<D> as Keeper>⟧.held self.old) (⟦<SlotKeeper<D> as Keeper>⟧.held self.new)) }
        ensures faults { CountsStore result (⟦<SlotKeeper<D> as Keeper>⟧.faults self.old) (⟦<SlotKeeper<D> as Keeper>⟧.faults self.new) }
        ensures gets { ⟦<SlotKeeper<D> as Keeper>⟧.gets self.new ≡ raised (⟦<SlotKeeper<D> as Keeper>⟧.gets self.old) }
        ensures last { MatchResult result (λ given. ⟦<SlotKeeper<D> as Keeper>⟧.last_get self.new ≡ replaced (⟦<SlotKeeper<D> as Keeper>⟧.last_get self.old) (option_map (λ bytes. bytes.items) given)) (λ _. ⟦<SlotKeeper<D> as Keeper>⟧.last_get self.new ≡ ⟦<SlotKeeper<D> as Keeper>⟧.last_get self.old) }
    {
        self.gets = self.gets.saturating_add(1);
        let Ok(heads) = self.heads() else {
            return Err(StoreFault::Failed);
        };
        let area = 1 - heads.target().0;
        let Some(slot) = heads.head(area).slot else {
            return Ok(None);
        };
        let bytes = self.payload(alloc, area, slot.length)?;
        Ok(Some(bytes))
    }
}
