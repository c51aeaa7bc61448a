//! Blocks of samples by row and place.

ghost use Rattle.std.specs.Prelude.{◌≡◌, ℕ, ◌^◌, ◌<◌};

/// A block of samples by row and place in the block.
pub trait Rows {
    /// The number of rows.
    ghost row_count: { Self → ℕ };

    /// The number of places in each row.
    ghost place_count: { Self → ℕ };

    /// The sample of a row and a place.
    ghost sample: { Self → ℕ → ℕ → ℕ };

    fn rows(&self) -> u32
        ensures { result ≡ row_count self.now };

    fn cells(&self) -> u32
        ensures { result ≡ place_count self.now };

    fn at(&self, row: u32, cell: u32) -> u16
        requires row_in { row < row_count self.now }
        requires cell_in { cell < place_count self.now }
        ensures { result ≡ sample self.now row cell };
}
