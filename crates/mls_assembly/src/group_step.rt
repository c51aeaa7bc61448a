//! Keys.

/// A key: a group and the number of a plane. Keys are ordered by plane, then group.
#[derive(Clone, Copy, Debug, PartialEq, Eq, PartialOrd, Ord)]
pub struct GroupStep {
    pub step: u32,
    pub group: u32,
}
