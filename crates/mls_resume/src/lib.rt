//! A campaign that goes on from the checkpoints of its ranks, on as many ranks as the new run has.
#![tactic(auto)]

mod cells;
pub mod checking;
pub mod cutting;
pub mod faults;
mod head;
mod old_ranks;
pub mod opening;

pub use checking::check_opening;
pub use cutting::recut;
pub use faults::RecutFault;
pub use opening::open_rank;
