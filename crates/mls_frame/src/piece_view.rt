//! A piece whose samples are lent from the bytes that spell it.

ghost use Rattle.std.specs.Prelude.{◌≡◌, ℕ, ◌+◌, ◌*◌, ◌<◌, ◌≤◌, length, slice_index};
ghost use Rattle.std.specs.Int.{w16, w32};
ghost use Rattle.mls_model.specs.Frames.{IsPiece, number, piece_in, longest_body};
ghost use Rattle.mls_frame.specs.Lent.{piece_from};
ghost use Rattle.std.proofs.Props.{props};

use crate::numbers::{number_16, number_32};
use mls_base::rows::Rows;

/// A piece of a group's timestep as it lies in the bytes that spell it. It holds no sample of its own: the
/// samples are lent from those bytes, two bytes each, row by row.
#[derive(Drop)]
pub struct PieceView<'a> {
    life: u32,
    group: u32,
    plane: u32,
    client: u16,
    rows: u16,
    first: u32,
    count: u32,
    samples: &'a [u8],
    ghost size: { length samples.now ≡ 2 * (rows * count) },
    ghost fits: { IsPiece (piece_from life group plane client rows first count samples.now) } by { Prim.hlevel props },
}

impl<'a> PieceView<'a> {
    ghost use Rattle.mls_frame.specs.Views.{piece_of};

    /// The piece with these fields, whose samples are lent from them.
    pub(crate) fn of(fields: &'a [u8]) -> PieceView<'a>
        requires samples { 24 + 2 * (number w16 14 fields.now * number w32 20 fields.now) ≤ length fields.now }
        requires body { 25 + 2 * (number w16 14 fields.now * number w32 20 fields.now) ≤ longest_body }
        ensures { piece_of result ≡ piece_in fields.now }
    {
        let rows = number_16(fields, 14);
        let count = number_32(fields, 20);
        let size = 2 * (rows as usize * count as usize);
        PieceView {
            life: number_32(fields, 0),
            group: number_32(fields, 4),
            plane: number_32(fields, 8),
            client: number_16(fields, 12),
            rows,
            first: number_32(fields, 16),
            count,
            samples: &fields[24..24 + size],
        }
    }

    /// The same piece, its samples lent once more from the same bytes.
    pub fn lent(&self) -> PieceView<'_>
        ensures { piece_of result ≡ piece_of self.now }
    {
        PieceView {
            life: self.life,
            group: self.group,
            plane: self.plane,
            client: self.client,
            rows: self.rows,
            first: self.first,
            count: self.count,
            samples: self.samples,
        }
    }

    /// The life of the group that sent the piece.
    pub fn life(&self) -> u32
        ensures { result ≡ (piece_of self.now).life }
    {
        self.life
    }

    /// The group that the piece is of.
    pub fn group(&self) -> u32
        ensures { result ≡ (piece_of self.now).group }
    {
        self.group
    }

    /// The number of the plane that the piece is of.
    pub fn step(&self) -> u32
        ensures { result ≡ (piece_of self.now).plane }
    {
        self.plane
    }

    /// The client that sent the piece.
    pub fn client(&self) -> u16
        ensures { result ≡ (piece_of self.now).client }
    {
        self.client
    }

    /// The first cell of the mesh that the piece has samples of.
    pub fn first(&self) -> u32
        ensures { result ≡ (piece_of self.now).first }
    {
        self.first
    }

    /// The number of cells.
    pub fn count(&self) -> u32
        ensures { result ≡ (piece_of self.now).count }
    {
        self.count
    }

    /// The piece fits its fields and the longest body.
    pub fn valid(&self)
        ensures { IsPiece (piece_of self.now) }
    {
        let _ = &self.life;
    }
}

impl<'a> Rows for PieceView<'a> {
    ghost use Rattle.mls_frame.specs.Views.{piece_of};

    ghost row_count = { λ p. (piece_of p).rows };

    ghost place_count = { λ p. (piece_of p).count };

    ghost sample = { λ p row place. slice_index (piece_of p).samples (row * (piece_of p).count + place) };

    #[inline]
    fn rows(&self) -> u32 {
        self.rows as u32
    }

    #[inline]
    fn cells(&self) -> u32 {
        self.count
    }

    #[inline]
    fn at(&self, row: u32, cell: u32) -> u16 {
        let place = 2 * (row as usize * self.count as usize + cell as usize);
        u16::from_be_bytes([self.samples[place], self.samples[place + 1]])
    }
}
