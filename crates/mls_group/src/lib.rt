//! A group that connects to a server and sends its pieces.
#![tactic(auto)]

mod faults;
mod hearing;
mod sending_group;
mod sending_pair;
mod texts;

pub use faults::{GroupFault, PairFault};
pub use mls_wire::Pair;
pub use sending_group::send_group;
pub use sending_pair::send_pair;
