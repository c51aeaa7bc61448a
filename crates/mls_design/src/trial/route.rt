//! A route of pieces.

/// A rank with a client that overlaps its block.
#[derive(Clone, Copy, Debug)]
pub struct Route {
    pub rank: u32,
    pub client: u32,
}
