use mls_base::faults::NoMemory;
use mls_base::rows::Rows;
use mls_frame::*;
use std::alloc::Global;
use std::test::*;

/// The piece of group 0, life 1 with the samples 1, 3, 3.
const VECTOR: [u8; 35] = [
    0, 0, 0, 0x1f, 1, 0, 0, 0, 1, 0, 0, 0, 0, 0, 0, 0, 0, 0, 0, 0, 3, 0, 0, 0, 0, 0, 0, 0, 1, 0, 1,
    0, 3, 0, 3,
];

fn first_piece(alloc: Global) -> Result<Frame, NoMemory> {
    let mut samples = Samples::new(alloc);
    samples.push(1)?;
    samples.push(3)?;
    samples.push(3)?;
    Ok(Frame::Piece(Piece {
        life: 1,
        group: 0,
        step: 0,
        client: 0,
        rows: 3,
        first: 0,
        count: 1,
        samples,
    }))
}

/// The sum of the samples of a block, by its places.
fn total<R: Rows>(rows: &R) -> u64 {
    let mut sum = 0u64;
    for row in 0..rows.rows() {
        for cell in 0..rows.cells() {
            sum = sum.wrapping_add(rows.at(row, cell) as u64);
        }
    }
    sum
}

#[test]
fn vector_is_put(rt: HostRuntime) -> Result<(), Fail> {
    let frame = first_piece(rt.alloc()).ok().ok_or("memory")?;
    let mut out = Vec::new(rt.alloc());
    put(&frame, &mut out).ok().ok_or("memory")?;
    assert_eq!(rt; out.as_slice(), VECTOR.as_slice());
    Ok(())
}

#[test]
fn vector_is_seen(rt: HostRuntime) -> Result<(), Fail> {
    let Seen::Whole { frame, used } = view(&VECTOR) else {
        return Err("the vector is a frame")?;
    };
    assert_eq!(rt; used, 35);
    let FrameView::Piece(piece) = frame else {
        return Err("the vector is a piece")?;
    };
    assert_eq!(rt; piece.life(), 1);
    assert_eq!(rt; piece.group(), 0);
    assert_eq!(rt; piece.step(), 0);
    assert_eq!(rt; piece.client(), 0);
    assert_eq!(rt; piece.rows(), 3);
    assert_eq!(rt; piece.first(), 0);
    assert_eq!(rt; piece.count(), 1);
    assert_eq!(rt; total(&piece), 7);
    Ok(())
}

#[test]
fn frame_is_fed_in_two_pieces(rt: HostRuntime) -> Result<(), Fail> {
    let mut feeder = Feeder::new(rt.alloc());
    feeder.feed(&VECTOR[..20]).ok().ok_or("memory")?;
    assert!(rt; matches!(feeder.next(), Seen::More));
    feeder.feed(&VECTOR[20..]).ok().ok_or("memory")?;
    assert!(rt; matches!(feeder.next(), Seen::Whole { used: 35, .. }));
    assert_eq!(rt; feeder.offset(), 35);
    assert_eq!(rt; feeder.rest(), 0);
    Ok(())
}
