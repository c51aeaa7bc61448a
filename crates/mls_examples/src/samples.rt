//! Samples with a sign.

ghost use Rattle.std.specs.Prelude.{◌≡◌, List, [], ◌∷◌, ℤ, pos, negsuc, Result, Ok, Err, true, false};
ghost use Rattle.mls_model.specs.declared.lanes.TapeWhy.TheVariants as why;
ghost use Rattle.mls_model.specs.Lanes.{tape_of, refused};
ghost use Rattle.mls_model.specs.ResultText.{result_text};
ghost use Rattle.mls_model.specs.Schedules.{plain};
ghost use Rattle.mls_examples.specs.Lanes.{two_groups_tape};
ghost use Rattle.mls_examples.specs.Samples.{signed_study, signed_tape, signed_lanes, signed_text};
ghost use Rattle.mls_examples.specs.Ranks.{rows_of};

/// Samples below 0: the tape's 88 bytes, the values of the cell's rows, and the whole text.
pub fn signed_samples()
    ensures tape { tape_of 1 true signed_tape ≡ Ok signed_lanes }
    ensures rows { rows_of signed_study signed_lanes (plain 1 signed_lanes) 0 0 ≡ (negsuc 0 ∷ pos 3 ∷ pos 3 ∷ []) ∷ (pos 5 ∷ negsuc 0 ∷ negsuc 0 ∷ []) ∷ [] }
    ensures text { result_text signed_study signed_lanes (plain 1 signed_lanes) ≡ signed_text }
{}

/// A tape of version 1 is refused where samples have a sign, and one of the other sample kind by its samples byte.
pub fn other_sample_kind()
    ensures version { tape_of 1 true two_groups_tape ≡ refused 4 why.Version }
    ensures samples { tape_of 1 false signed_tape ≡ refused 6 why.Samples }
{}
