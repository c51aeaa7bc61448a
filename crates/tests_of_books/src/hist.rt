//! The histograms of a rank of one cell, one step, two groups, one parameter and one client, under sample kind u16.

ghost use Rattle.std.specs.Prelude.{◌<◌};

use mls_base::numbers::Numbers;
use mls_base::rows::Rows;
use mls_base::shape::Shape;
use mls_field::fold::RowFold;
use mls_frame::{FrameView, Seen, view};
use mls_hist::Hist;
use std::alloc::Global;

const NUMBERS: Numbers = Numbers {
    cells: 1,
    steps: 1,
    groups: 2,
    parameters: 1,
    ranks: 1,
    clients: 1,
    slots: 16,
    silence: 300,
    lives: 5,
    thresholds: 0,
    threshold: [0; 8],
    signed: false,
    fields: 1,
};

// The piece of group 0, plane 0 and life 1 with the samples 1023, 1024 and 0: A and B lie at the border of two bins.
const PIECE: [u8; 35] = [
    0, 0, 0, 31, 1, 0, 0, 0, 1, 0, 0, 0, 0, 0, 0, 0, 0, 0, 0, 0, 3, 0, 0, 0, 0, 0, 0, 0, 1, 3, 255,
    4, 0, 0, 0,
];

/// The numbers of samples in the first three bins, and the quartiles' bins, of one cell after one row. None where the
/// bytes spell no row of the cell, or memory is short.
fn one_row(alloc: Global, shape: &Shape, bytes: &[u8]) -> Option<([u32; 3], [Option<u32>; 3])>
    requires { 0 < shape.now.ranks }
{
    let Seen::Whole {
        frame: FrameView::Piece(piece),
        ..
    } = view(bytes)
    else {
        return None;
    };
    let Ok(mut hist) = Hist::new(alloc, shape, 0) else {
        return None;
    };
    shape.valid();
    let block = shape.block(0);
    let cells = block.end - block.first;
    if piece.rows() != shape.parameters() + 2
        || piece.cells() != cells
        || cells == 0
        || shape.planes() == 0
    {
        return None;
    }
    hist.add_block(0, &piece);
    Some((
        [
            hist.count(0, 0, 0),
            hist.count(0, 0, 1),
            hist.count(0, 0, 2),
        ],
        [
            hist.bracket(0, 0, 1),
            hist.bracket(0, 0, 2),
            hist.bracket(0, 0, 3),
        ],
    ))
}

#[test]
fn quartiles_lie_in_their_bins(rt: HostRuntime) {
    let shape = Shape::of(&NUMBERS).expect(&rt, "a shape");
    assert_eq!(rt;
        one_row(rt.alloc(), &shape, &PIECE),
        Some(([1, 1, 0], [Some(0), Some(0), Some(1)]))
    );
}
