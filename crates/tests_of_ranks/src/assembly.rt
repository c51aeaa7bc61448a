//! A rank of two cells, one step, two groups, one parameter and two clients, under sample kind u16.

ghost use Rattle.std.specs.Prelude.{◌≡◌, IsTrue, None};
ghost use Rattle.mls_model.specs.Fitting.{piece_reason};
ghost use Rattle.mls_frame.specs.Views.{piece_of};

use mls_assembly::{Assembled, GroupStep, Pending};
use mls_base::numbers::Numbers;
use mls_base::rows::Rows;
use mls_base::shape::Shape;
use mls_frame::{FrameView, PieceView, Seen, view};

const NUMBERS: Numbers = Numbers {
    cells: 2,
    steps: 1,
    groups: 2,
    parameters: 1,
    ranks: 1,
    clients: 2,
    slots: 16,
    silence: 300,
    lives: 5,
    thresholds: 0,
    threshold: [0; 8],
    signed: false,
    fields: 1,
};

// A client's piece of group 0, its samples being these three of the client's one cell.
fn piece(life: u8, client: u8, samples: [u8; 3]) -> [u8; 35] {
    [
        0, 0, 0, 31, 1, 0, 0, 0, life, 0, 0, 0, 0, 0, 0, 0, 0, 0, client, 0, 3, 0, 0, 0, client, 0,
        0, 0, 1, 0, samples[0], 0, samples[1], 0, samples[2],
    ]
}

/// Whether a piece is one that rank 0 takes.
fn fits(shape: &Shape, piece: &PieceView<'_>) -> bool
    ensures { IsTrue result → piece_reason shape.now 0 (piece_of piece.now) ≡ None }
{
    if piece.rows() != shape.parameters() + 2
        || piece.group() >= shape.groups()
        || piece.step() >= shape.planes()
        || piece.client() as u32 >= shape.clients()
    {
        return false;
    }
    shape.valid();
    let overlap = shape.overlap(0, piece.client() as u32);
    overlap.first < overlap.end
        && piece.first() == overlap.first
        && piece.count() == overlap.end - overlap.first
}

/// What becomes of the piece that the bytes spell, or None where they spell none that fits.
fn offer(pending: &mut Pending, shape: &Shape, bytes: &[u8]) -> Option<Assembled>
    requires sizes { pending.old.sizes ≡ shape.now }
    requires rank { pending.old.rank ≡ 0 }
    ensures sizes { pending.new.sizes ≡ pending.old.sizes }
    ensures rank { pending.new.rank ≡ pending.old.rank }
{
    let Seen::Whole {
        frame: FrameView::Piece(piece),
        ..
    } = view(bytes)
    else {
        return None;
    };
    if !fits(shape, &piece) {
        return None;
    }
    match pending.offer(&piece) {
        Ok(answer) => Some(answer),
        Err(_) => None,
    }
}

/// The samples of the key that the bytes' piece completes with others, cell by cell.
fn complete(pending: &mut Pending, shape: &Shape, bytes: &[u8]) -> Option<[u16; 6]>
    requires sizes { pending.old.sizes ≡ shape.now }
    requires rank { pending.old.rank ≡ 0 }
    ensures sizes { pending.new.sizes ≡ pending.old.sizes }
    ensures rank { pending.new.rank ≡ pending.old.rank }
{
    let Seen::Whole {
        frame: FrameView::Piece(piece),
        ..
    } = view(bytes)
    else {
        return None;
    };
    shape.valid();
    let block = shape.block(0);
    if !fits(shape, &piece) || piece.count() >= block.end - block.first {
        return None;
    }
    match pending.offer(&piece) {
        Ok(Assembled::Complete) => {}
        _ => return None,
    }
    let key = GroupStep {
        group: piece.group(),
        step: piece.step(),
    };
    let rows = pending.rows(key);
    if rows.cells() < 2 {
        return None;
    }
    let samples = [
        rows.at(0, 0),
        rows.at(1, 0),
        rows.at(2, 0),
        rows.at(0, 1),
        rows.at(1, 1),
        rows.at(2, 1),
    ];
    pending.drop_key(key);
    Some(samples)
}

#[test]
fn clients_are_assembled(rt: HostRuntime) {
    let shape = Shape::of(&NUMBERS).expect(&rt, "a shape");
    let mut pending = Pending::new(rt.alloc(), &shape, 0);
    let first = piece(2, 1, [4, 5, 6]);
    let last = piece(2, 0, [1, 2, 3]);
    assert_eq!(rt; offer(&mut pending, &shape, &first), Some(Assembled::Kept));
    assert!(rt; !pending.is_empty());
    assert_eq!(rt;
        complete(&mut pending, &shape, &last),
        Some([1, 2, 3, 4, 5, 6])
    );
    assert!(rt; pending.is_empty());
    pending.reset();
}
