//! The serving side of connections: each connection's frames are posted to the rank that it is for.
#![tactic(auto)]

mod frames;
mod lane;
mod mem_post;
mod opening;
mod owning;
mod post;
mod reading;
mod served;
mod stepping;
mod taking;
mod watched;

pub use lane::serve_lane;
pub use mem_post::MemPost;
pub use post::{Note, Post};
pub use served::{LaneFault, Served};
pub use watched::{WatchCell, Watched};
