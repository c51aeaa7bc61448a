//! The serial fold: each rank takes the events of its list in turn, and the result is written from the ranks' cores.
#![tactic(auto)]

mod folding;
mod ranks;

pub use folding::{fold, fold_cores, lines_of, run_ranks};
