//! Sums, extrema and counts over lists of samples, and what is read from them.
#![tactic(auto)]

pub mod above;
pub mod columns;
pub mod ends;
pub mod exceed;
pub mod extrema;
pub mod laws;
pub mod power;
pub mod sums;
