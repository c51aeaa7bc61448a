//! Which events a rank takes and which keys it completes, from the tape alone.

ghost use Rattle.std.specs.Prelude.{◌≡◌, ℕ, ◌<◌, true, false, List};
ghost use Rattle.std.specs.List.{list_any};
ghost use Rattle.mls_model.specs.Studies.{Sizes};
ghost use Rattle.mls_model.specs.Lanes.{Lane};
ghost use Rattle.mls_model.specs.Histories.{LaneEvent};
ghost use Rattle.mls_model.specs.Schedules.{is_complete, plain};
ghost use Rattle.mls_model.specs.Survival.{is_crash, crash_after_save};
ghost use Rattle.mls_model.specs.Completion.{Key, is_completed};
ghost use Rattle.mls_model.specs.ResultText.{pieces_of, histories_of};
ghost use Rattle.mls_orders.specs.Tapes.{tape_pieces, TakesTheTape};
ghost use Rattle.mls_orders.specs.OrderFree.{IsOrderFree, some_life_has_all};

/// Under a complete schedule each rank's history has the events of the rank's lanes, each as often as the tape has it,
/// in some order. So it has under the plain schedule.
pub fn schedules_take_the_tape()
    ensures complete { (ranks : ℕ) (lanes : List Lane) (orders : List (List ℕ)) →
        is_complete ranks lanes orders ≡ true → TakesTheTape ranks lanes (histories_of lanes orders) }
    ensures plain { (ranks : ℕ) (lanes : List Lane) →
        TakesTheTape ranks lanes (histories_of lanes (plain ranks lanes)) }
{}

/// On a tape that meets the premise no history has a crash, so none behind a save.
pub fn no_rank_crashes()
    ensures none { (s : Sizes) (lanes : List Lane) (orders : List (List ℕ)) (rank : ℕ) → IsOrderFree s lanes →
        is_complete s.ranks lanes orders ≡ true → list_any is_crash (histories_of lanes orders rank) ≡ false }
    ensures none_after_save { (s : Sizes) (lanes : List Lane) (orders : List (List ℕ)) (rank : ℕ) →
        IsOrderFree s lanes → is_complete s.ranks lanes orders ≡ true →
        crash_after_save (histories_of lanes orders rank) ≡ false }
{}

/// On a tape that meets the premise a rank completes a key exactly where some life has a fitting piece of each client
/// that overlaps the rank's block, whatever the order in which the rank takes the tape.
pub fn keys_are_completed_by_the_tape()
    ensures taken { (s : Sizes) (lanes : List Lane) (histories : ℕ → List LaneEvent) (rank : ℕ) (key : Key) →
        IsOrderFree s lanes → TakesTheTape s.ranks lanes histories → rank < s.ranks →
        is_completed s rank key (pieces_of s rank (histories rank))
        ≡ some_life_has_all s rank key (tape_pieces s lanes rank) }
    ensures complete { (s : Sizes) (lanes : List Lane) (orders : List (List ℕ)) (rank : ℕ) (key : Key) →
        IsOrderFree s lanes → is_complete s.ranks lanes orders ≡ true → rank < s.ranks →
        is_completed s rank key (pieces_of s rank (histories_of lanes orders rank))
        ≡ some_life_has_all s rank key (tape_pieces s lanes rank) }
{}
