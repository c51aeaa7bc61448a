//! Which events outlive a rank's crashes, and what is printed then.

ghost use Rattle.std.specs.Prelude.{◌≡◌, List, [], ◌∷◌, Some, None, true, false, codes};
ghost use Rattle.mls_model.specs.declared.outcomes.Outcome.TheVariants.{Accepted, Kept, Replay, Stale, Save, Crash};
ghost use Rattle.mls_model.specs.Frames.{save, crash};
ghost use Rattle.mls_model.specs.Histories.{history};
ghost use Rattle.mls_model.specs.Survival.{surviving, last_save, crash_after_save};
ghost use Rattle.mls_model.specs.Fitting.{fitting};
ghost use Rattle.mls_model.specs.Completion.{is_completed};
ghost use Rattle.mls_model.specs.Outcomes.{outcomes};
ghost use Rattle.mls_model.specs.ResultText.{result_text};
ghost use Rattle.mls_model.specs.Schedules.{is_legal, is_complete, schedule_text};
ghost use Rattle.mls_examples.specs.Small.{small_study};
ghost use Rattle.mls_examples.specs.Crashes.{twice_with, the_piece, the_save, the_crash, sent_saved_lost_sent, sent_lost, sent_lost_sent, saved_sent_lost_lost_sent, replayed_text, lost_text, sent_anew_text, crashed_twice_text, from_client, later_life_lost, lost_before_the_save, completed_and_lost, later_life_saved};
ghost use Rattle.mls_examples.specs.Assembly.{two_clients, part_piece};
ghost use Rattle.mls_examples.specs.Ranks.{survivors};

/// A piece, a save, a crash and the piece again: the first piece was saved, so the second is a replay.
pub fn save_crash_replay()
    ensures complete { is_complete 1 (twice_with (save ∷ crash ∷ [])) sent_saved_lost_sent ≡ true }
    ensures schedule { schedule_text sent_saved_lost_sent ≡ codes "0 0\n0 1\n0 1\n0 0\n" }
    ensures history { history (twice_with (save ∷ crash ∷ [])) (0 ∷ 1 ∷ 1 ∷ 0 ∷ []) ≡ the_piece ∷ the_save ∷ the_crash ∷ the_piece ∷ [] }
    ensures survivors { survivors (twice_with (save ∷ crash ∷ [])) sent_saved_lost_sent 0 ≡ the_piece ∷ the_crash ∷ the_piece ∷ [] }
    ensures outcomes { outcomes small_study.sizes 0 (survivors (twice_with (save ∷ crash ∷ [])) sent_saved_lost_sent 0) ≡ Accepted ∷ Crash ∷ Replay ∷ [] }
    ensures text { result_text small_study (twice_with (save ∷ crash ∷ [])) sent_saved_lost_sent ≡ replayed_text }
{}

/// A crash without a save loses the piece before it. That schedule is legal and not complete.
pub fn crash_without_save()
    ensures legal { is_legal 1 (twice_with (crash ∷ [])) sent_lost ≡ true }
    ensures incomplete { is_complete 1 (twice_with (crash ∷ [])) sent_lost ≡ false }
    ensures survivors { survivors (twice_with (crash ∷ [])) sent_lost 0 ≡ the_crash ∷ [] }
    ensures outcomes { outcomes small_study.sizes 0 (survivors (twice_with (crash ∷ [])) sent_lost 0) ≡ Crash ∷ [] }
    ensures text { result_text small_study (twice_with (crash ∷ [])) sent_lost ≡ lost_text }
{}

/// The same with the piece sent once more after the crash: it is accepted, and nothing is a replay.
pub fn crash_without_save_then_sent()
    ensures complete { is_complete 1 (twice_with (crash ∷ [])) sent_lost_sent ≡ true }
    ensures survivors { survivors (twice_with (crash ∷ [])) sent_lost_sent 0 ≡ the_crash ∷ the_piece ∷ [] }
    ensures outcomes { outcomes small_study.sizes 0 (survivors (twice_with (crash ∷ [])) sent_lost_sent 0) ≡ Crash ∷ Accepted ∷ [] }
    ensures text { result_text small_study (twice_with (crash ∷ [])) sent_lost_sent ≡ sent_anew_text }
{}

/// A save, a piece and two crashes: the piece came after the save, so it is lost, and its next copy is accepted.
pub fn save_crash_crash()
    ensures complete { is_complete 1 (twice_with (save ∷ crash ∷ crash ∷ [])) saved_sent_lost_lost_sent ≡ true }
    ensures survivors { survivors (twice_with (save ∷ crash ∷ crash ∷ [])) saved_sent_lost_lost_sent 0 ≡ the_crash ∷ the_piece ∷ [] }
    ensures outcomes { outcomes small_study.sizes 0 (survivors (twice_with (save ∷ crash ∷ crash ∷ [])) saved_sent_lost_lost_sent 0) ≡ Crash ∷ Accepted ∷ [] }
    ensures text { result_text small_study (twice_with (save ∷ crash ∷ crash ∷ [])) saved_sent_lost_lost_sent ≡ crashed_twice_text }
{}

/// Two clients of one key: what was saved of the one is completed by the other after the crash.
pub fn saved_piece_is_completed()
    ensures survivors { surviving later_life_lost ≡ from_client 0 1 ∷ the_crash ∷ from_client 1 1 ∷ [] }
    ensures outcomes { outcomes two_clients.sizes 0 (surviving later_life_lost) ≡ Kept ∷ Crash ∷ Accepted ∷ [] }
    ensures saved { last_save later_life_lost ≡ Some (from_client 0 1 ∷ []) }
    ensures behind { crash_after_save later_life_lost ≡ true }
{}

/// A crash before the first save survives, and what it lost is not brought back by that save.
pub fn lost_piece_stays_lost()
    ensures survivors { surviving lost_before_the_save ≡ the_crash ∷ the_crash ∷ [] }
    ensures outcomes { outcomes two_clients.sizes 0 (surviving lost_before_the_save) ≡ Crash ∷ Crash ∷ [] }
    ensures saved { last_save lost_before_the_save ≡ Some (from_client 0 1 ∷ the_crash ∷ []) }
{}

/// A key that is completed and lost, twice: in the end client 0's piece waits again.
pub fn lost_key_waits_again()
    ensures survivors { surviving completed_and_lost ≡ from_client 0 1 ∷ the_crash ∷ [] }
    ensures outcomes { outcomes two_clients.sizes 0 (surviving completed_and_lost) ≡ Kept ∷ Crash ∷ [] }
    ensures pending { fitting two_clients.sizes 0 (surviving completed_and_lost) ≡ part_piece 0 1 (1 ∷ 2 ∷ 3 ∷ []) ∷ [] }
    ensures incomplete { is_completed two_clients.sizes 0 (record { group = 0; plane = 0 }) (fitting two_clients.sizes 0 (surviving completed_and_lost)) ≡ false }
{}

/// Where the greater life was saved, a piece of the lesser one is stale after the crash. The last save does not survive.
pub fn saved_life_goes_on()
    ensures survivors { surviving later_life_saved ≡ from_client 0 1 ∷ the_save ∷ from_client 1 2 ∷ the_crash ∷ from_client 1 1 ∷ from_client 0 2 ∷ [] }
    ensures outcomes { outcomes two_clients.sizes 0 (surviving later_life_saved) ≡ Kept ∷ Save ∷ Kept ∷ Crash ∷ Stale ∷ Accepted ∷ [] }
    ensures saved { last_save later_life_saved ≡ Some (from_client 0 1 ∷ the_save ∷ from_client 1 2 ∷ []) }
{}

/// No save in a history is another thing than a save before which nothing came, and no crash stands behind a save.
pub fn save_at_the_beginning()
    ensures none { last_save (the_crash ∷ []) ≡ None }
    ensures first { last_save (the_save ∷ []) ≡ Some [] }
    ensures before { crash_after_save (the_crash ∷ the_save ∷ []) ≡ false }
{}
