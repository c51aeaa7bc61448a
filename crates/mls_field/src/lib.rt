//! Sums over the rows of samples of a rank's block.
#![tactic(auto)]

mod cells;
mod columns;
mod copied;
mod ends;
pub mod field;
pub mod fold;
mod gathered;
mod put;
mod stored;
mod taken;
