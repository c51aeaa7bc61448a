//! What a keeper's calls keep of each put over a whole run with crashes.

ghost use Rattle.std.specs.Prelude.{◌≡◌, ℕ, List, None, [], ◌∷◌};
ghost use Rattle.mls_slot.specs.Runs.{GivesOnly};
ghost use Rattle.mls_slot.specs.WholeRuns.{Value, Step, IsRun, Survives, IsEmpty};

use crate::disk::Disk;

/// The store of two slots survives crashes. A run is any list of calls of a keeper, each with what its clauses say of
/// it, and of crashes, over a disk that tells and was empty or gives one of these values at the beginning.
pub fn two_slot_store<D: Disk>()
    ensures empty { (old new : D) (steps : List Step) → IsEmpty (D.view old) → IsRun D.view old steps new → Survives (None ∷ []) steps (D.view new) }
    ensures left { (old new : D) (steps : List Step) (values : List Value) → GivesOnly (D.view old) values → IsRun D.view old steps new → Survives values steps (D.view new) }
{}
