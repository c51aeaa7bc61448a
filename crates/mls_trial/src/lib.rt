//! The fold of a trial: each rank takes the events of its list in turn, and the summary is written from the ranks' cores.
#![tactic(auto)]

mod added;
mod counted;
mod folding;
mod laws;
mod lines;
mod summary;
mod value_sums;

pub use folding::fold_trial;
pub use laws::{complete_schedules_are_legal, complete_trials_accept_all};
pub use summary::write_trial;
