//! Why an event is not taken.

use mls_base::outside::Keeper;
use mls_ckpt::CkptWhy;

/// Why an event is not taken.
#[derive(Clone, Copy, Debug, PartialEq, Eq)]
pub enum BookFault {
    /// The keeper's call failed.
    KeeperFault,
    /// The keeper gave nothing, or bytes that are no checkpoint. `at` is the first place that is wrong.
    CheckpointBad { at: u64, why: CkptWhy },
    /// Memory ran out.
    Memory,
}

/// Want of memory, which hands the keeper back.
#[derive(Drop)]
pub struct Refused<K: Keeper + Drop> {
    pub keeper: K,
}
