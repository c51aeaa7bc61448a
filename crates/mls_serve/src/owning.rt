//! A frame of its own, copied from one that is lent.

ghost use Rattle.std.specs.Prelude.{◌≡◌, ℕ, ◌+◌, ◌*◌, ◌<◌, ◌≤◌, ◌^◌, length, take, IfOk};
ghost use Rattle.mls_frame.specs.Views.{piece_of, frame_of};
ghost use Rattle.mls_frame.specs.Owned.{owned_piece, owned_frame};

use mls_base::faults::NoMemory;
use mls_base::rows::Rows;
use mls_frame::{Frame, FrameView, Piece, PieceView, Samples};
use std::alloc::Global;

/// Copies a row of a piece behind the rows before it.
fn copy_row(piece: &PieceView<'_>, row: u32, samples: &mut Samples) -> Result<(), NoMemory>
    requires row_in { row < (piece_of piece.now).rows }
    requires so_far { samples.old ≡ take (row * (piece_of piece.now).count) (piece_of piece.now).samples }
    ensures { IfOk result (λ _. samples.new ≡ take ((row + 1) * (piece_of piece.now).count) (piece_of piece.now).samples) }
{
    piece.valid();
    for cell in 0..piece.count() {
        samples.push(piece.at(row, cell))?;
    }
    Ok(())
}

/// A piece's samples, row by row.
fn copied_samples(alloc: Global, piece: &PieceView<'_>) -> Result<Samples, NoMemory>
    ensures { IfOk result (λ samples. samples ≡ (piece_of piece.now).samples) }
{
    piece.valid();
    let mut samples = Samples::new(alloc);
    for row in 0..piece.rows() {
        copy_row(piece, row, &mut samples)?;
    }
    Ok(samples)
}

/// The piece with samples of its own.
fn owned_piece(alloc: Global, piece: &PieceView<'_>) -> Result<Piece, NoMemory>
    ensures { IfOk result (λ copy. owned_piece copy ≡ piece_of piece.now) }
{
    piece.valid();
    let samples = copied_samples(alloc, piece)?;
    Ok(Piece {
        life: piece.life(),
        group: piece.group(),
        step: piece.step(),
        client: piece.client(),
        rows: piece.rows() as u16,
        first: piece.first(),
        count: piece.count(),
        samples,
    })
}

/// The frame that a view is of, with samples of its own.
pub fn owned(alloc: Global, view: &FrameView<'_>) -> Result<Frame, NoMemory>
    ensures { IfOk result (λ frame. owned_frame frame ≡ frame_of view.now) }
{
    let frame = match view {
        FrameView::Piece(piece) => Frame::Piece(owned_piece(alloc, piece)?),
        FrameView::Beat { group, life } => Frame::Beat {
            group: *group,
            life: *life,
        },
        FrameView::Bye { group, life } => Frame::Bye {
            group: *group,
            life: *life,
        },
        FrameView::Save => Frame::Save,
        FrameView::Crash => Frame::Crash,
        FrameView::Hello {
            version,
            group,
            life,
            client,
            rank,
        } => Frame::Hello {
            version: *version,
            group: *group,
            life: *life,
            client: *client,
            rank: *rank,
        },
        FrameView::Welcome { lane } => Frame::Welcome { lane: *lane },
        FrameView::Refuse { reason, value } => Frame::Refuse {
            reason: *reason,
            value: *value,
        },
    };
    Ok(frame)
}
