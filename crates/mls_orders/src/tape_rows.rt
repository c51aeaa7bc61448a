//! Which groups are accepted and what rows they give, whatever the order in which the ranks take a tape.

ghost use Rattle.std.specs.Prelude.{◌≡◌, ℕ, ◌<◌, true, List, map};
ghost use Rattle.std.specs.List.Sorted.{IsPermutation};
ghost use Rattle.mls_model.specs.Studies.{Sizes};
ghost use Rattle.mls_model.specs.Blocks.{block, is_in_span};
ghost use Rattle.mls_model.specs.Lanes.{Lane};
ghost use Rattle.mls_model.specs.Histories.{LaneEvent};
ghost use Rattle.mls_model.specs.Schedules.{is_complete};
ghost use Rattle.mls_model.specs.AcceptedRows.{accepted, sample_rows, shifted_rows};
ghost use Rattle.mls_model.specs.ResultText.{pieces_of, histories_of, history_rows};
ghost use Rattle.mls_orders.specs.Tapes.{tape_pieces, TakesTheTape};
ghost use Rattle.mls_orders.specs.OrderFree.{IsOrderFree};
ghost use Rattle.mls_orders.specs.CellLines.{group_row};

/// On a tape that meets the premise the accepted groups of a rank and plane are the same, in some order, whatever the
/// order in which the ranks take the tape. That none of them stands twice is a law of `mls_laws`.
pub fn groups_are_the_same()
    ensures taken { (s : Sizes) (lanes : List Lane) (a b : ℕ → List LaneEvent) (rank plane : ℕ) →
        IsOrderFree s lanes → TakesTheTape s.ranks lanes a → TakesTheTape s.ranks lanes b → rank < s.ranks →
        IsPermutation (accepted s rank plane (pieces_of s rank (a rank)))
        (accepted s rank plane (pieces_of s rank (b rank))) }
    ensures complete { (s : Sizes) (lanes : List Lane) (a b : List (List ℕ)) (rank plane : ℕ) → IsOrderFree s lanes →
        is_complete s.ranks lanes a ≡ true → is_complete s.ranks lanes b ≡ true → rank < s.ranks →
        IsPermutation (accepted s rank plane (pieces_of s rank (histories_of lanes a rank)))
        (accepted s rank plane (pieces_of s rank (histories_of lanes b rank))) }
{}

/// The rows of a cell are, in the order of the accepted groups, what the tape gives for each of them: the samples of
/// the first piece of the group from the client whose part holds the cell, whichever life completes the key.
pub fn rows_are_the_tapes()
    ensures { (s : Sizes) (lanes : List Lane) (histories : ℕ → List LaneEvent) (rank plane x : ℕ) →
        IsOrderFree s lanes → TakesTheTape s.ranks lanes histories → rank < s.ranks →
        is_in_span (block s rank) x ≡ true →
        sample_rows s rank plane x (pieces_of s rank (histories rank))
        ≡ map (group_row s plane x (tape_pieces s lanes rank))
        (accepted s rank plane (pieces_of s rank (histories rank))) }
{}

/// The rows of a plane and cell are the same, in some order, whatever the order in which the ranks take the tape. So
/// are the rows of shifted values that a rank keeps sums of.
pub fn rows_are_the_same()
    ensures taken { (s : Sizes) (lanes : List Lane) (a b : ℕ → List LaneEvent) (plane x : ℕ) → IsOrderFree s lanes →
        TakesTheTape s.ranks lanes a → TakesTheTape s.ranks lanes b →
        IsPermutation (history_rows s a plane x) (history_rows s b plane x) }
    ensures complete { (s : Sizes) (lanes : List Lane) (a b : List (List ℕ)) (plane x : ℕ) → IsOrderFree s lanes →
        is_complete s.ranks lanes a ≡ true → is_complete s.ranks lanes b ≡ true →
        IsPermutation (history_rows s (histories_of lanes a) plane x) (history_rows s (histories_of lanes b) plane x) }
    ensures shifted { (s : Sizes) (lanes : List Lane) (a b : ℕ → List LaneEvent) (rank plane x : ℕ) →
        IsOrderFree s lanes → TakesTheTape s.ranks lanes a → TakesTheTape s.ranks lanes b → rank < s.ranks →
        is_in_span (block s rank) x ≡ true →
        IsPermutation (shifted_rows s rank plane x (pieces_of s rank (a rank)))
        (shifted_rows s rank plane x (pieces_of s rank (b rank))) }
{}
