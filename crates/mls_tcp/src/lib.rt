//! Links and doors over TCP.
#![tactic(auto)]

mod door;
mod link;
mod waits;

pub use door::TcpDoor;
pub use link::TcpLink;
