//! What the result text says of the samples of one cell.

ghost use Rattle.std.specs.Prelude.{◌≡◌, List, [], ◌∷◌, pos, negsuc, Result, Ok, false};
ghost use Rattle.mls_model.specs.Lanes.{tape_of};
ghost use Rattle.mls_model.specs.ResultText.{result_text, cell_text};
ghost use Rattle.mls_model.specs.Schedules.{plain};
ghost use Rattle.mls_examples.specs.Small.{small_study};
ghost use Rattle.mls_examples.specs.Statistics.{two_groups_lanes, two_groups_text, all_shown, all_shown_text, power_alone, power_alone_text, replay_lanes, replay_text, no_lane_text, one_group_lanes, one_group_text, three_groups, three_groups_lanes, three_groups_text, extrema_alone, extrema_alone_text};
ghost use Rattle.mls_examples.specs.Lanes.{two_groups_tape, no_lane_tape};
ghost use Rattle.mls_examples.specs.Largest.{most_groups, most_signed_groups, equal_rows, largest_cell, least_cell};
ghost use Rattle.mls_examples.specs.Ranks.{rows_of};

/// Two groups on one lane: the tape's 87 bytes, the rows of the cell, and the whole text.
pub fn two_groups()
    ensures tape { tape_of 1 false two_groups_tape ≡ Ok two_groups_lanes }
    ensures rows { rows_of small_study two_groups_lanes (plain 1 two_groups_lanes) 0 0 ≡ (pos 1 ∷ pos 3 ∷ pos 3 ∷ []) ∷ (pos 5 ∷ pos 1 ∷ pos 1 ∷ []) ∷ [] }
    ensures text { result_text small_study two_groups_lanes (plain 1 two_groups_lanes) ≡ two_groups_text }
{}

/// The same lane where all statistics and the thresholds 1 and 3 are shown.
pub fn two_groups_with_all_statistics()
    ensures text { result_text all_shown two_groups_lanes (plain 1 two_groups_lanes) ≡ all_shown_text }
{}

/// The same lane where the power lines alone are shown.
pub fn two_groups_power_alone()
    ensures text { result_text power_alone two_groups_lanes (plain 1 two_groups_lanes) ≡ power_alone_text }
{}

/// A piece that is sent twice counts once, and its second copy is a replay.
pub fn replay_power_alone()
    ensures text { result_text power_alone replay_lanes (plain 1 replay_lanes) ≡ replay_text }
{}

/// A tape with no lane: no sample, so each line of the cell says that there is none.
pub fn no_lane()
    ensures tape { tape_of 1 false no_lane_tape ≡ Ok [] }
    ensures text { result_text small_study [] (plain 1 []) ≡ no_lane_text }
{}

/// One group: its columns do not vary, so there are no indices.
pub fn one_group()
    ensures text { result_text small_study one_group_lanes (plain 1 one_group_lanes) ≡ one_group_text }
{}

/// Three groups: the first index, 3 / √12, is cut off after six digits.
pub fn three_groups_cut_off()
    ensures text { result_text three_groups three_groups_lanes (plain 1 three_groups_lanes) ≡ three_groups_text }
{}

/// The same lane where extrema and the numbers above the thresholds 0 and 1 are shown alone.
pub fn extrema_and_exceed_alone()
    ensures text { result_text extrema_alone three_groups_lanes (plain 1 three_groups_lanes) ≡ extrema_alone_text }
{}

/// What is said of a cell with as many groups as a study may have, where each sample is the greatest.
pub fn largest_samples()
    ensures cell { cell_text most_groups 0 0 0 (equal_rows (pos 65535)) ≡ largest_cell }
{}

/// The same where each sample is the least of those with a sign.
pub fn least_samples()
    ensures cell { cell_text most_signed_groups 0 0 0 (equal_rows (negsuc 32767)) ≡ least_cell }
{}
