//! Laws over schedules: when the sums of a tape don't depend on the order in which its events are taken.
//!
//! Each public function here has an empty body: its contract is a law that holds of all tapes and schedules.
#![tactic(auto)]

pub mod completed_keys;
pub mod permuted_rows;
pub mod premise;
pub mod result_lines;
pub mod tape_rows;
