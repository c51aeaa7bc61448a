//! What holds of a rank's book since its run began.

ghost use Rattle.std.specs.Prelude.{◌≡◌, ℕ, false, None};
ghost use Rattle.mls_model.specs.declared.outcomes.Outcome.{Outcome};
ghost use Rattle.mls_tape.specs.Events.{DecodedEvent};
ghost use Rattle.mls_book.specs.declared.faults.BookFault.{BookFault};
ghost use Rattle.mls_book.specs.Books.{BookView};
ghost use Rattle.mls_book.specs.Keepers.{KeeperState, keeper_seen};
ghost use Rattle.mls_book.specs.Offers.{IsTaken, IsRefused};
ghost use Rattle.mls_held.specs.Begun.{HasBegun};

use mls_base::outside::Keeper;
use mls_field::fold::RowFold;
use mls_tape::Lanes;

/// A book that took nothing has begun with its keeper, and each event that is taken or refused leaves what holds since
/// the run began.
pub fn beginnings_go_on<T: Lanes, F: RowFold, K: Keeper + Drop>()
    ensures begins { (book : BookView T F K) → book.fault ≡ None → book.saved ≡ false
        → HasBegun K.Keeper (keeper_seen K.Keeper book.keeper) book }
    ensures taken { (start : KeeperState) (old new : BookView T F K) (event : DecodedEvent T) (place : ℕ) (o : Outcome)
        → IsTaken F.RowFold K.Keeper old new event place o → HasBegun K.Keeper start old
        → HasBegun K.Keeper start new }
    ensures refused { (start : KeeperState) (old new : BookView T F K) (event : DecodedEvent T) (fault : BookFault)
        → IsRefused F.RowFold K.Keeper old new event fault → HasBegun K.Keeper start old
        → HasBegun K.Keeper start new }
{}
