//! A run of a tape by workers in threads, each rank's book under its own lock, and the drain of what they left.
#![tactic(auto)]

mod begin;
mod faults;
mod left;
mod pool;
mod reports;
mod rota;
mod seats;
mod workers;

pub use faults::{NO_WORKER, PoolFault, Unstarted};
pub use pool::{Pooled, drain, run_lanes};
