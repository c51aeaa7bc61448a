//! The names of a server's run.

ghost use Rattle.std.specs.Prelude.{Bool, false};

use mls_held::Run;
use std::marker::Brand;

/// The names of a server's run: those of a run, and whether its door was sure to hand out a link for each connection.
pub trait Server: Run {
    /// Whether the door awaited a link for each connection when the run began, and counts so many accepts more.
    ghost enough: { Bool };
}

/// A call that passes this marker picks the names of its run.
impl Server for Brand {
    ghost enough = { false };
}
