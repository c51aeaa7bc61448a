//! Worked examples: what the definitions give for small studies, lanes and schedules, computed by the check.
//!
//! Each function has an empty body. Its contract is the example: a clause for each part that is computed,
//! and most often one for the whole result text. `specs/` has the studies, lanes and texts by subject.
#![tactic(auto)]

pub mod assembly;
pub mod checkpoints;
pub mod crashes;
pub mod designs;
pub mod fields;
pub mod histograms;
pub mod lanes;
pub mod orders;
pub mod samples;
pub mod schedules;
pub mod statistics;
pub mod studies;
pub mod sums;
pub mod trial;
