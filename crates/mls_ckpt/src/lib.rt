//! A rank's state as bytes: numbers put and taken in order, why bytes are refused, and what checkpoints are.
#![tactic(auto)]

pub mod faults;
pub mod laws;
pub mod put;
pub mod take;

pub use faults::{CkptWhy, RecoverFault, TakeFault};
pub use put::Put;
pub use take::Take;
