//! One rank over a run: its core, the keeper of its checkpoint, and the journal of what it took. The rules of saves and
//! crashes stand here alone.
#![tactic(auto)]

pub mod book;
pub mod faults;
pub mod laws;
pub mod offered;
pub mod saved_rank;

pub use book::{Book, Finished};
pub use faults::{BookFault, Refused};
pub use offered::Offered;
pub use saved_rank::SavedRank;
