//! What becomes of a piece that is offered.

/// What becomes of a piece that is offered to the pending ones.
#[derive(Clone, Copy, Debug, PartialEq, Eq)]
pub enum Assembled {
    /// The piece waits for those of other clients.
    Kept,
    /// A piece of its key, life and client came before.
    Repeated,
    /// A piece of its key with a greater life came before.
    Stale,
    /// With this piece each client that overlaps the block has one of its key and life.
    Complete,
}
