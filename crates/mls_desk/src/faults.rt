//! What comes back where a server doesn't begin.

use mls_base::outside::Keeper;

/// Want of memory before any connection, which hands the keepers back.
#[derive(Drop)]
pub struct DeskUnstarted<K: Keeper + Drop> {
    pub keepers: Vec<K>,
}
