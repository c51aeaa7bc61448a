//! The core of one rank: what becomes of each event, and what the rank keeps of it.
#![tactic(auto)]

mod counting;
pub mod rank_core;
mod recovering;
mod saving;

pub use mls_model::lanes::LaneKind;
pub use mls_model::outcomes::{Counts, Outcome, Reason};
pub use rank_core::RankCore;
