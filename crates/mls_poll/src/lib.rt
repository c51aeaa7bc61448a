//! Links and doors that are polled, and the frames of a polled link as a stream.
#![tactic(auto)]

pub mod laws;
pub mod mem_door;
pub mod mem_link;
pub mod outside;
mod reading;
pub mod stream;
pub mod waits;
pub mod whole_frame;

pub use mem_door::MemPollDoor;
pub use mem_link::MemPollLink;
pub use outside::{PollDoor, PollLink};
pub use stream::{FrameStream, StreamItem};
pub use whole_frame::WholeFrame;
