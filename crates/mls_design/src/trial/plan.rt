//! What the groups plan to send on each route.

/// How many beats and pieces all groups plan to send on a route. They are the same for each route.
#[derive(Clone, Copy, Debug)]
pub struct Plan {
    pub beats: u64,
    pub pieces: u64,
}
