//! The step and cell lines of the result text, whatever the order in which the ranks take a tape.

ghost use Rattle.std.specs.Prelude.{◌≡◌, ℕ, true, List, ◌++◌, codes};
ghost use Rattle.mls_model.specs.Studies.{Study};
ghost use Rattle.mls_model.specs.declared.lanes.LaneLine.{LaneLine};
ghost use Rattle.mls_model.specs.Lanes.{Lane};
ghost use Rattle.mls_model.specs.Histories.{LaneEvent};
ghost use Rattle.mls_model.specs.Schedules.{is_complete, plain};
ghost use Rattle.mls_model.specs.ResultText.{histories_of, history_text, lines_of, result_text};
ghost use Rattle.mls_orders.specs.Tapes.{TakesTheTape};
ghost use Rattle.mls_orders.specs.OrderFree.{IsOrderFree};
ghost use Rattle.mls_orders.specs.CellLines.{cell_lines, first_lines, text_with_plain_lines};

/// A result text is the lines before the step and cell lines, these lines, and the line `end`.
pub fn texts_have_cell_lines()
    ensures history { (study : Study) (histories : ℕ → List LaneEvent) (lines : List LaneLine) →
        history_text study histories lines
        ≡ first_lines study histories lines ++ (cell_lines study histories ++ codes "end\n") }
    ensures result { (study : Study) (lanes : List Lane) (orders : List (List ℕ)) →
        result_text study lanes orders
        ≡ first_lines study (histories_of lanes orders) (lines_of lanes)
        ++ (cell_lines study (histories_of lanes orders) ++ codes "end\n") }
{}

/// On a tape that meets the premise the step and cell lines are the same for every complete schedule, so also those of
/// the plain schedule.
pub fn cell_lines_are_the_same()
    ensures taken { (study : Study) (lanes : List Lane) (a b : ℕ → List LaneEvent) → IsOrderFree study.sizes lanes →
        TakesTheTape study.sizes.ranks lanes a → TakesTheTape study.sizes.ranks lanes b →
        cell_lines study a ≡ cell_lines study b }
    ensures complete { (study : Study) (lanes : List Lane) (a b : List (List ℕ)) → IsOrderFree study.sizes lanes →
        is_complete study.sizes.ranks lanes a ≡ true → is_complete study.sizes.ranks lanes b ≡ true →
        cell_lines study (histories_of lanes a) ≡ cell_lines study (histories_of lanes b) }
    ensures plain { (study : Study) (lanes : List Lane) (orders : List (List ℕ)) → IsOrderFree study.sizes lanes →
        is_complete study.sizes.ranks lanes orders ≡ true →
        cell_lines study (histories_of lanes orders)
        ≡ cell_lines study (histories_of lanes (plain study.sizes.ranks lanes)) }
{}

/// On a tape that meets the premise the result text of a complete schedule has the step and cell lines of the plain
/// schedule.
pub fn result_text_has_the_plain_lines()
    ensures { (study : Study) (lanes : List Lane) (orders : List (List ℕ)) → IsOrderFree study.sizes lanes →
        is_complete study.sizes.ranks lanes orders ≡ true →
        result_text study lanes orders ≡ text_with_plain_lines study lanes orders }
{}
