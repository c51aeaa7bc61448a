//! The tape, the schedule and the summary that trial makes of a small study and the number 42.

ghost use Rattle.std.specs.Prelude.{◌≡◌, ◌+◌, ◌%◌, [], ◌∷◌, map, length, true, false, codes};
ghost use Rattle.mls_model.specs.Numbers.{below};
ghost use Rattle.mls_model.specs.Designs.{word};
ghost use Rattle.mls_model.specs.Schedules.{is_complete, schedule_text};
ghost use Rattle.mls_design.specs.Trial.{is_restarted, trial_lanes, trial_bytes, copies};
ghost use Rattle.mls_design.specs.TrialSchedule.{trial_orders, mixing_from};
ghost use Rattle.mls_design.specs.TrialText.{trial_summary};
ghost use Rattle.mls_design.specs.TrialSizes.{is_too_large};
ghost use Rattle.mls_examples.specs.Trial.{tried_study, tried_lanes, tried_order, tried_history, signed_study};
ghost use Rattle.mls_model.specs.ResultText.{histories_of};

/// The words of 42: the group isn't restarted, its piece is written once, and the lanes are mixed by the next four.
pub fn words_of_42()
    ensures group { word 42 0 % 8 ≡ 7 }
    ensures piece { word 42 1 % 16 ≡ 9 }
    ensures mixing { map (λ n. word 42 (2 + n) % 2) (below 4) ≡ 0 ∷ 1 ∷ 1 ∷ 0 ∷ [] }
    ensures restarted { is_restarted 42 0 ≡ false }
{}

/// The lanes and the bytes of the tape.
pub fn small_trial_tape()
    ensures lanes { trial_lanes tried_study 42 ≡ tried_lanes }
    ensures size { length (trial_bytes tried_study 42) ≡ 134 }
    ensures signed_size { length (trial_bytes signed_study 42) ≡ 135 }
    ensures small { is_too_large tried_study 42 ≡ false }
{}

/// The schedule, and what happens under it.
pub fn small_trial_schedule()
    ensures begins { mixing_from tried_study 42 0 ≡ 2 }
    ensures order { trial_orders tried_study 42 ≡ tried_order }
    ensures text { schedule_text (trial_orders tried_study 42) ≡ codes "0 0\n0 1\n0 1\n0 0\n0 1\n0 1\n0 2\n" }
    ensures complete { is_complete 1 tried_lanes tried_order ≡ true }
    ensures history { histories_of tried_lanes tried_order 0 ≡ tried_history }
{}

/// The summary. It is the same under `i16`, since these samples are below 32,768.
pub fn small_trial_summary()
    ensures unsigned { trial_summary tried_study 42 tried_lanes tried_order ≡ codes "melissa-trial 1\nnumber 42\nlanes 3 events 7\nrank 0 accepted 1 kept 0 replay 1 stale 0 repeated 0 foreign 0 0 0 0 0 0\ngroups 1 1\nsum 1177 705949\nend\n" }
    ensures signed { trial_summary signed_study 42 tried_lanes tried_order ≡ codes "melissa-trial 1\nnumber 42\nlanes 3 events 7\nrank 0 accepted 1 kept 0 replay 1 stale 0 repeated 0 foreign 0 0 0 0 0 0\ngroups 1 1\nsum 1177 705949\nend\n" }
{}
