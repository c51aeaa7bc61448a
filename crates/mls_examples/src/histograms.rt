//! What the bins text says of the samples of one cell.

ghost use Rattle.std.specs.Prelude.{◌≡◌, [], ◌∷◌, length};
ghost use Rattle.mls_model.specs.Frames.{save, crash};
ghost use Rattle.mls_model.specs.Schedules.{plain};
ghost use Rattle.mls_ckpt.specs.Histories.{checkpoint};
ghost use Rattle.mls_hist.specs.BinsText.{bins_text};
ghost use Rattle.mls_hist.specs.HistPart.{hist_part};
ghost use Rattle.mls_examples.specs.Small.{small_study};
ghost use Rattle.mls_examples.specs.Samples.{signed_study};
ghost use Rattle.mls_examples.specs.Histograms.{binned_lanes, binned_text, signed_binned_text, replayed_bins_text, no_bins_text};
ghost use Rattle.mls_examples.specs.Crashes.{twice_with, sent_saved_lost_sent};
ghost use Rattle.mls_examples.specs.CheckpointBytes.{one_piece};

/// Two groups, whose four samples lie in four bins.
pub fn bins_of_two_groups()
    ensures { bins_text small_study binned_lanes (plain 1 binned_lanes) ≡ binned_text }
{}

/// The same samples with a sign.
pub fn bins_of_signed_samples()
    ensures { bins_text signed_study binned_lanes (plain 1 binned_lanes) ≡ signed_binned_text }
{}

/// A tape with no lane: no bin and no quartile.
pub fn bins_of_no_lane()
    ensures { bins_text small_study [] (plain 1 []) ≡ no_bins_text }
{}

/// One group sent twice, with a save and a crash between: its two samples lie in one bin, and what was saved has 393
/// bytes.
pub fn bins_of_save_crash_replay()
    ensures text { bins_text small_study (twice_with (save ∷ crash ∷ [])) sent_saved_lost_sent ≡ replayed_bins_text }
    ensures saved { length (checkpoint hist_part small_study.sizes 0 one_piece) ≡ 393 }
{}
