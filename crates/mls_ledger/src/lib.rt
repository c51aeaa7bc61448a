//! The set of keys that a rank has completed.
#![tactic(auto)]

pub mod marks;
mod reading;

pub use marks::Marks;
