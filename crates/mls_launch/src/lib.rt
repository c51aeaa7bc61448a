//! The launcher: which groups and ranks to start, restart or give up, from what was heard of them.
//!
//! `mls_model` has the definition over whole lists of events; a `Watch` keeps a row for each group and rank.
#![tactic(auto)]

mod changes;
mod deciding;
pub mod examples;
mod faults;
mod group_state;
pub mod laws;
mod reading;
mod totals;
mod watch;
mod writing;

pub use faults::OutFault;
pub use mls_model::launcher::{Action, Event, Timed};
pub use reading::{EventFault, read_events};
pub use totals::Totals;
pub use watch::Watch;
pub use writing::{WatchReport, write_watch};
