//! The fold over histograms, and the bins text of its ranks' cores.
#![tactic(auto)]

mod folding;
mod lines;
mod text;

pub use folding::fold_bins;
