//! The fold of ranks that go on from bytes: each takes the events of its list in turn, and the result is written from
//! the ranks' cores.
#![tactic(auto)]

mod folding;
mod ranks;

pub use folding::{resume_cores, resume_fold};
