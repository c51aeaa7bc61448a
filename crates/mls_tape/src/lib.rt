//! Tapes of lanes, the events of a lane, and schedules of them.
#![tactic(auto)]

pub mod decoded;
pub mod faults;
mod lane_stretch;
pub mod laws;
mod lines;
mod scanning;
pub mod schedule;
mod table;
pub mod tape;
pub mod wire;

pub use decoded::{Decoded, Lanes};
pub use faults::{SchedFault, TapeFault};
pub use mls_model::lanes::{LaneEnd, LaneKind, LaneLine, SchedWhy, TapeWhy};
pub use schedule::Schedule;
pub use tape::Tape;
pub use wire::Wire;
