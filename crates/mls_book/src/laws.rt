//! What holds of the histories that books run.

ghost use Rattle.std.specs.Prelude.{◌≡◌, ℕ, List, [], ◌∷◌, ◌++◌, Some};
ghost use Rattle.std.specs.List.{list_any};
ghost use Rattle.mls_model.specs.Histories.{LaneEvent, event_of, history};
ghost use Rattle.mls_model.specs.Lanes.{Lane};
ghost use Rattle.mls_model.specs.Numbers.{times};
ghost use Rattle.mls_model.specs.Survival.{is_save};
ghost use Rattle.mls_model.specs.declared.outcomes.Outcome.{Outcome};
ghost use Rattle.mls_tape.specs.Events.{DecodedEvent};
ghost use Rattle.mls_book.specs.SavedRanks.{reads_keeper};
ghost use Rattle.mls_book.specs.Backups.{gets_after};
ghost use Rattle.mls_book.specs.Books.{BookView, IsCarried};
ghost use Rattle.mls_book.specs.Offers.{IsTaken, lane_event};
ghost use Rattle.mls_book.specs.Runs.{gets_over, IsRun};

use mls_base::outside::Keeper;
use mls_field::fold::RowFold;
use mls_tape::Lanes;

/// The number of gets after a history, event by event.
pub fn gets_are_counted()
    ensures none { (gets : ℕ) → gets_over [] gets ≡ gets }
    ensures more { (history : List LaneEvent) (e : LaneEvent) (gets : ℕ) → gets_over (history ++ e ∷ []) gets
        ≡ gets_after (reads_keeper (list_any is_save history) e) (gets_over history gets) }
{}

/// The keeper of a book is at each moment what the history of its journal made of the keeper that it was given.
pub fn books_run<T: Lanes, F: RowFold, K: Keeper + Drop>()
    ensures begins { (book : BookView T F K) → IsRun F.RowFold K.Keeper book [] book.keeper }
    ensures goes_on { (old new : BookView T F K) (event : DecodedEvent T) (place : ℕ) (o : Outcome) (start : K)
        (h : List LaneEvent) → IsTaken F.RowFold K.Keeper old new event place o
        → IsCarried F.RowFold K.Keeper old h
        → IsCarried F.RowFold K.Keeper new (h ++ lane_event event ∷ [])
        → IsRun F.RowFold K.Keeper old h start
        → IsRun F.RowFold K.Keeper new (h ++ lane_event event ∷ []) start }
    ensures over_tape { (lanes : List Lane) (old new : BookView T F K) (event : DecodedEvent T) (place : ℕ)
        (o : Outcome) (start : K) → IsTaken F.RowFold K.Keeper old new event place o
        → event.number ≡ times event.lane old.journal
        → event_of lanes event.lane event.number ≡ Some (lane_event event)
        → IsCarried F.RowFold K.Keeper old (history lanes old.journal)
        → IsCarried F.RowFold K.Keeper new (history lanes new.journal)
        → IsRun F.RowFold K.Keeper old (history lanes old.journal) start
        → IsRun F.RowFold K.Keeper new (history lanes new.journal) start }
{}
