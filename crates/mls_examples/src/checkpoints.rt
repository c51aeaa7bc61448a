//! The checkpoint of a saved piece, and the first place that is wrong in bytes that are changed.

ghost use Rattle.std.specs.Prelude.{◌≡◌, List, [], ◌∷◌, ◌++◌, length, map, take, Some, Ok};
ghost use Rattle.mls_model.specs.Frames.{save, crash};
ghost use Rattle.mls_model.specs.Histories.{history};
ghost use Rattle.mls_model.specs.Survival.{last_save};
ghost use Rattle.mls_ckpt.specs.declared.faults.CkptWhy.TheVariants as why;
ghost use Rattle.mls_ckpt.specs.Reading.{refused};
ghost use Rattle.mls_ckpt.specs.Spellings.{spelled_state};
ghost use Rattle.mls_examples.specs.Crashes.{twice_with};
ghost use Rattle.mls_examples.specs.CheckpointBytes.{version_3, version_2, version_1, older_versions, all_versions};
ghost use Rattle.mls_examples.specs.CheckpointBytes.{one_piece, saved_state, read, saved, IsReadBack};
ghost use Rattle.mls_examples.specs.CheckpointBytes.{AreRefused, AreShort, short_fronts, one_study, two_fields, signed};
ghost use Rattle.mls_examples.specs.CheckpointBytes.{other_magic, other_versions, other_shapes, other_counts};
ghost use Rattle.mls_examples.specs.CheckpointBytes.{other_powers, other_extrema, other_totals, other_columns};
ghost use Rattle.mls_examples.specs.CheckpointBytes.{other_sums_of_none, two_thresholds, other_above};
ghost use Rattle.mls_examples.specs.CheckpointBytes.{two_wrong_sums, wrong_least_at_the_end};
ghost use Rattle.mls_examples.specs.CheckpointBytes.{two_parts, one_waits, one_marked_one_waits, two_wait, other_keys};
ghost use Rattle.mls_examples.specs.CheckpointBytes.{marked_keys, falling_keys, four_parts, clients_elsewhere};
ghost use Rattle.mls_examples.specs.CheckpointBytes.{three_parts, two_of_three, falling_clients};

/// The checkpoint of a rank that accepted one piece, its spellings in each version that is read, and the state that they are read as.
pub fn a_saved_piece()
    ensures last { last_save (history (twice_with (save ∷ crash ∷ [])) (0 ∷ 1 ∷ 1 ∷ 0 ∷ [])) ≡ Some one_piece }
    ensures checkpoint { saved one_study one_piece ≡ version_3 }
    ensures second { spelled_state 2 one_study 0 saved_state ≡ version_2 }
    ensures first { spelled_state 1 one_study 0 saved_state ≡ version_1 }
    ensures lengths { map length all_versions ≡ 249 ∷ 245 ∷ 244 ∷ [] }
    ensures read { map (read one_study) all_versions ≡ map (λ bytes. Ok saved_state) all_versions }
{}

/// Version 2 is not read for two fields, and version 1 neither for two fields nor for signed samples.
pub fn versions_of_other_studies()
    ensures fields { map (read two_fields) older_versions ≡ map (λ bytes. refused 4 why.Version) older_versions }
    ensures signed { read signed version_1 ≡ refused 4 why.Version }
{}

/// Another magic, version or shape, counts with too great a sum, and a mark of no group.
pub fn refused_heads()
    ensures magic { AreRefused why.Magic one_study version_3 other_magic }
    ensures version { AreRefused why.Version one_study version_3 other_versions }
    ensures shape { AreRefused why.Shape one_study version_3 other_shapes }
    ensures counts { AreRefused why.Range one_study version_3 other_counts }
{}

/// Each rule of the sums of a cell.
pub fn refused_sums()
    ensures powers { AreRefused why.Range one_study version_3 other_powers }
    ensures extrema { AreRefused why.Range one_study version_3 other_extrema }
    ensures totals { AreRefused why.Range one_study version_3 other_totals }
    ensures columns { AreRefused why.Range one_study version_3 other_columns }
    ensures none { AreRefused why.Range one_study (saved one_study []) other_sums_of_none }
    ensures above { AreRefused why.Range two_thresholds (saved two_thresholds one_piece) other_above }
{}

/// A rule over several numbers is tried behind the last of them, and answers at its own place.
pub fn first_rule_that_fails()
    ensures sum { read one_study two_wrong_sums ≡ refused 189 why.Range }
    ensures extrema { read one_study wrong_least_at_the_end ≡ refused 179 why.Short }
{}

/// Each rule of the pending keys.
pub fn refused_pending_keys()
    ensures keys { AreRefused why.Range two_parts (saved two_parts one_waits) other_keys }
    ensures marked { AreRefused why.Range two_parts (saved two_parts one_marked_one_waits) marked_keys }
    ensures rising { AreRefused why.Range two_parts (saved two_parts two_wait) falling_keys }
    ensures elsewhere { AreRefused why.Range four_parts (saved four_parts one_waits) clients_elsewhere }
    ensures clients { AreRefused why.Range three_parts (saved three_parts two_of_three) falling_clients }
    ensures sample { read two_parts (take 386 (saved two_parts one_waits)) ≡ refused 385 why.Short }
{}

/// Too few bytes are refused at the first byte of a number, and bytes behind the end at the first of them.
pub fn refused_ends()
    ensures short { AreShort one_study version_3 short_fronts }
    ensures trailing { read one_study (version_3 ++ 0 ∷ []) ≡ refused 249 why.Trailing }
{}

/// Keys that wait for clients are read as they were.
pub fn waiting_keys_are_read()
    ensures two { IsReadBack two_parts one_marked_one_waits }
    ensures three { IsReadBack three_parts two_of_three }
{}
