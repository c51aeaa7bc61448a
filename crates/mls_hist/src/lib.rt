//! Histograms over the samples of a rank's block, and the quartile brackets that they give.
#![tactic(auto)]

mod adding;
mod cells;
pub mod hist;
pub mod laws;
mod taken;

pub use cells::{BIN_WIDTH, BINS, BinCounts, bracket_of};
pub use hist::Hist;
