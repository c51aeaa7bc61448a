//! Connections of groups: links and doors as the outside has them, and what is said first on a connection.
#![tactic(auto)]

pub mod greeting;
pub mod mem_door;
pub mod mem_link;
pub mod outside;
pub mod pairing;
pub mod reply;
pub mod sending;

pub use greeting::{Greeting, greet};
pub use mem_door::MemDoor;
pub use mem_link::MemLink;
pub use outside::{Door, Link};
pub use pairing::{Pair, pairs};
pub use reply::{Reply, answer};
pub use sending::send_all;
