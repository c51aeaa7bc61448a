//! Sums of values.

/// The sum of values, and that of their squares.
#[derive(Clone, Copy, Debug)]
pub struct ValueSums {
    pub first: i128,
    pub second: u128,
}
