//! A server's desk: each rank's book under its own lock, the watch under another, and what is done with them before the
//! first connection and after the last.
#![tactic(auto)]

mod begin;
mod desk;
mod ending;
mod faults;
mod post;
mod reports;
mod saves;
mod seats;

pub use begin::{BegunDesk, Rooms, begin_desk};
pub use desk::Desk;
pub use ending::{DeskEnd, end_desk};
pub use faults::DeskUnstarted;
pub use post::DeskPost;
pub use reports::{is_reported, least_rank};
pub use saves::last_saves;
