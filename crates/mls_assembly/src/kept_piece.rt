//! What is kept of one piece.

ghost use Rattle.std.specs.Prelude.{◌≡◌, ℕ, ◌+◌, ◌-◌, ◌*◌, ◌<◌, ◌≤◌, [], ◌++◌, length, slice_index, take, IfOk, OnOk};
ghost use Rattle.std.specs.Int.{w16};
ghost use Rattle.mls_ckpt.specs.Reading.{text, texts};
ghost use Rattle.mls_frame.specs.Views.{piece_of};
ghost use Rattle.mls_assembly.specs.Shares.{share_of};

use mls_base::faults::NoMemory;
use mls_base::rows::Rows;
use mls_ckpt::Put;
use mls_frame::PieceView;
use std::alloc::Global;
use std::marker::Model;

/// The samples of one client's piece, row by row, with the cells that they are of.
#[derive(Drop)]
pub(crate) struct KeptPiece {
    first: u32,
    count: u32,
    samples: Vec<u16>,
}

impl Model for KeptPiece {
    ghost use Rattle.mls_assembly.specs.Shares.{Share};

    ghost Value = { Share };

    ghost view = { λ p. record { first = p.first; count = p.count; samples = p.samples.items } };
}

/// Copies a row of a piece behind the rows before it.
fn copy_row(piece: &PieceView<'_>, row: u32, samples: &mut Vec<u16>) -> Result<(), NoMemory>
    requires row_in { row < (piece_of piece.now).rows }
    requires so_far { samples.old.items ≡ take (row * (piece_of piece.now).count) (piece_of piece.now).samples }
    ensures { IfOk result (λ _. samples.new.items ≡ take ((row + 1) * (piece_of piece.now).count) (piece_of piece.now).samples) }
{
    piece.valid();
    for cell in 0..piece.count() {
        samples.push(piece.at(row, cell))?;
    }
    Ok(())
}

impl KeptPiece {
    /// What is kept of a piece.
    pub(crate) fn of(alloc: Global, piece: &PieceView<'_>) -> Result<KeptPiece, NoMemory>
        ensures { IfOk result (λ part. part ≡ share_of (piece_of piece.now)) }
    {
        piece.valid();
        let size = piece.rows() as usize * piece.count() as usize;
        let mut samples = Vec::with_capacity(alloc, size)?;
        for row in 0..piece.rows() {
            copy_row(piece, row, &mut samples)?;
        }
        Ok(KeptPiece {
            first: piece.first(),
            count: piece.count(),
            samples,
        })
    }

    /// A piece of the cells from `first` on, with these samples.
    pub(crate) fn from_samples(first: u32, count: u32, samples: Vec<u16>) -> KeptPiece
        ensures { result ≡ record { first = first; count = count; samples = samples.items } }
    {
        KeptPiece {
            first,
            count,
            samples,
        }
    }

    /// The sample of a row and a cell of the mesh.
    #[inline]
    pub(crate) fn at(&self, row: u32, cell: u32) -> u16
        requires within { row * self.now.count + (cell - self.now.first) < length self.now.samples }
        requires from { self.now.first ≤ cell }
        ensures { result ≡ slice_index self.now.samples (row * self.now.count + (cell - self.now.first)) }
    {
        let place = row as usize * self.count as usize + (cell - self.first) as usize;
        self.samples[place]
    }

    /// Appends the samples, row by row.
    pub(crate) fn put(&self, out: &mut Put) -> Result<(), NoMemory>
        ensures { OnOk result (out.new ≡ out.old ++ texts (text w16) self.now.samples []) }
    {
        for &sample in self.samples.as_slice() {
            out.put_u16(sample)?;
        }
        Ok(())
    }
}
