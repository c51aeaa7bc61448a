//! Why a run by workers ends, and what comes back where it doesn't begin.

use mls_base::outside::Keeper;
use mls_book::BookFault;

/// The number of a worker that is none of them: the drain, and a recorded store fault that no worker reported.
pub const NO_WORKER: u32 = 64;

/// The fault of a rank's book, with the worker that met it, or `NO_WORKER`.
#[derive(Clone, Copy, Debug, PartialEq, Eq)]
pub struct PoolFault {
    pub worker: u32,
    pub rank: u32,
    pub fault: BookFault,
}

/// Want of memory before any event, which hands the keepers back.
#[derive(Drop)]
pub struct Unstarted<K: Keeper + Drop> {
    pub keepers: Vec<K>,
}
