//! Exact arithmetic of the indices, and decimal text. No call takes memory.
#![tactic(auto)]

pub mod fractions;
pub mod laws;
pub mod texts;

pub use fractions::{digits12, rho6, root};
pub use texts::{Digits, put_decimal, put_millionths};
