//! The block of a key whose pieces are all there.

ghost use Rattle.std.specs.Prelude.{◌≡◌, ◌<◌};
ghost use Rattle.mls_model.specs.Blocks.{block};
ghost use Rattle.mls_assembly.specs.KeyShares.{AreShares};

use crate::key_pieces::KeyPieces;
use mls_base::Span;
use mls_base::rows::Rows;
use mls_base::shape::Shape;

/// The samples of a rank's block, each read from the piece of the client whose part holds its cell.
#[derive(Drop)]
pub struct PendingRows<'a> {
    pub(crate) shape: Shape,
    pub(crate) rank: u32,
    pub(crate) span: Span,
    pub(crate) pieces: &'a KeyPieces,
    ghost rank_in: { rank < shape.ranks },
    ghost span_is: { span ≡ block shape rank },
    ghost kept: { AreShares shape rank pieces.now },
}

impl<'a> Rows for PendingRows<'a> {
    ghost use Rattle.mls_assembly.specs.Lent.{row_count, place_count, sample};

    ghost row_count = { row_count };

    ghost place_count = { place_count };

    ghost sample = { sample };

    #[inline]
    fn rows(&self) -> u32 {
        self.shape.parameters() + 2
    }

    #[inline]
    fn cells(&self) -> u32 {
        self.span.end - self.span.first
    }

    #[inline]
    fn at(&self, row: u32, cell: u32) -> u16 {
        self.shape.valid();
        let cell = self.span.first + cell;
        match self.pieces.piece(self.shape.client_of(cell)) {
            Some(piece) => piece.at(row, cell),
            None => 0,
        }
    }
}
