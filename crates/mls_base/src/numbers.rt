//! The numbers that a shape is made of.

/// The numbers of a study. The first `thresholds` entries of `threshold` are the thresholds, as shifted values.
#[derive(Clone, Copy, Debug, PartialEq, Eq)]
pub struct Numbers {
    pub cells: u32,
    pub steps: u32,
    pub groups: u32,
    pub parameters: u32,
    pub ranks: u32,
    pub clients: u32,
    pub slots: u32,
    /// In seconds.
    pub silence: u32,
    pub lives: u32,
    pub thresholds: u32,
    pub threshold: [u16; 8],
    /// Whether the samples stand for signed values.
    pub signed: bool,
    /// From 1 to 4.
    pub fields: u32,
}
