//! A server of connections: workers that accept and serve them in threads, each rank's book under its own lock, the
//! door under another, and what is left when they have returned.
#![tactic(auto)]

mod board;
mod doorway;
mod faults;
mod names;
mod server;
mod serving;
mod settling;
mod workers;

pub use faults::ServeFault;
pub use server::{ServeEnd, serve};
