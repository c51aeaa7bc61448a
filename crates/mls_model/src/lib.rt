//! The definitions that the crates' contracts cite, and the plain types that they speak of.
//!
//! `specs/` has the definitions, a file a subject: a study, blocks, samples, frames, lanes, schedules,
//! histories, survival, fitting pieces, completion, outcomes, accepted rows, statistics, indices and the
//! result text. They look at whole lists by position; the code of the other crates keeps running sums.
#![tactic(auto)]

pub mod blocks;
pub mod lanes;
pub mod launcher;
pub mod outcomes;
pub mod studies;
