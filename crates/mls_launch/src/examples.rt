//! Two small runs of a launcher, computed from the definition alone.

ghost use Rattle.std.specs.Prelude.{◌≡◌};
ghost use Rattle.mls_model.specs.WatchText.{watch_text};
ghost use Rattle.mls_launch.specs.Examples.{launch_sizes, three_groups_events, three_groups_text};
ghost use Rattle.mls_launch.specs.Examples.{strict_silence_events, strict_silence_text};

/// Three groups, two of them at once: one ends well, one is silent to its last life, one waits for a slot.
pub fn launcher_of_three_groups()
    ensures { watch_text (launch_sizes 3 2 10 2) three_groups_events ≡ three_groups_text }
{}

/// Silence has to be passed: nothing is done to a group that was silent for exactly so long.
pub fn silence_passed_strictly()
    ensures { watch_text (launch_sizes 1 1 5 1) strict_silence_events ≡ strict_silence_text }
{}
