//! The names of one run, which its locked books agree on.

ghost use Rattle.std.specs.Prelude.{ℕ, Bool, false, None};
ghost use Rattle.mls_model.specs.Studies.{Sizes};
ghost use Rattle.mls_book.specs.Journals.{ToldLane};
ghost use Rattle.mls_book.specs.Keepers.{KeeperState};
ghost use Rattle.mls_held.specs.Unnamed.{no_sizes, no_keeper};

use std::marker::Brand;

/// The names of a run. They are fixed for one run, and the caller that begins the run chooses them.
///
/// A type that keeps a fact of them speaks of one of its values and of these names: no fact ties the values of two
/// locks.
pub trait Run {
    /// The number of lanes.
    ghost lane_count: { ℕ };

    /// The kind of a lane with the list of its frames, where that is told.
    ghost told: { ℕ → ToldLane };

    /// Whether a rank (first) may take events of a lane (second).
    ghost belongs_to: { ℕ → ℕ → Bool };

    /// The shape of the study.
    ghost sizes: { Sizes };

    /// What was seen of a rank's keeper when the run began.
    ghost keepers: { ℕ → KeeperState };

    /// The number of connections of a server.
    ghost connections: { ℕ };

    /// How many faults the server's door had when the run began.
    ghost door_faults: { ℕ };

    /// How many accepts the server's door had when the run began.
    ghost accepts: { ℕ };
}

/// A call that passes this marker picks the names of its run.
impl Run for Brand {
    ghost lane_count = { 0 };

    ghost told = { λ lane. None };

    ghost belongs_to = { λ rank lane. false };

    ghost sizes = { no_sizes };

    ghost keepers = { λ rank. no_keeper };

    ghost connections = { 0 };

    ghost door_faults = { 0 };

    ghost accepts = { 0 };
}
