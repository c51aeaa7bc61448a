//! Sums over rows of samples, and the covariances and variances that are read from them. No call takes memory.
#![tactic(auto)]

pub mod columns;
pub mod laws;
pub mod martinez;
pub mod ranges;
pub mod sums;

pub use martinez::{IndexParts, Martinez, Sum};
