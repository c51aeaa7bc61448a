//! A core is saved and recovered: a rank of one cell, one step, two groups, one parameter and one client, under sample kind u16, after group 0 with the samples 1, 3 and 3.

ghost use Rattle.std.specs.Prelude.{◌≡◌, ◌<◌, ◌≤◌, ◌^◌, length};
ghost use Rattle.mls_model.specs.Outcomes.{total_count};
ghost use Rattle.mls_rank.specs.Cores.{counts_of};

use mls_base::faults::NoMemory;
use mls_base::numbers::Numbers;
use mls_base::shape::Shape;
use mls_ckpt::{CkptWhy, RecoverFault};
use mls_field::field::Field;
use mls_frame::{Seen, view};
use mls_rank::{LaneKind, Outcome, RankCore};
use std::alloc::Global;

const NUMBERS: Numbers = Numbers {
    cells: 1,
    steps: 1,
    groups: 2,
    parameters: 1,
    ranks: 1,
    clients: 1,
    slots: 16,
    silence: 300,
    lives: 5,
    thresholds: 0,
    threshold: [0; 8],
    signed: false,
    fields: 1,
};

// The piece of group 0, plane 0 and life 1 with the samples 1, 3 and 3.
const PIECE: [u8; 35] = [
    0, 0, 0, 31, 1, 0, 0, 0, 1, 0, 0, 0, 0, 0, 0, 0, 0, 0, 0, 0, 3, 0, 0, 0, 0, 0, 0, 0, 1, 0, 1,
    0, 3, 0, 3,
];

// The head of version 3, up to the number of thresholds.
const HEAD_3: [u8; 40] = [
    77, 67, 75, 80, 0, 3, 0, 0, 0, 0, 1, 0, 0, 0, 1, 0, 0, 0, 1, 0, 0, 0, 2, 0, 0, 0, 1, 0, 0, 0,
    1, 0, 0, 0, 1, 0, 0, 0, 0, 0,
];

// The head of version 2.
const HEAD_2: [u8; 36] = [
    77, 67, 75, 80, 0, 2, 0, 0, 0, 0, 1, 0, 0, 0, 1, 0, 0, 0, 2, 0, 0, 0, 1, 0, 0, 0, 1, 0, 0, 0,
    1, 0, 0, 0, 0, 0,
];

// The head of version 1.
const HEAD_1: [u8; 35] = [
    77, 67, 75, 80, 0, 1, 0, 0, 0, 1, 0, 0, 0, 1, 0, 0, 0, 2, 0, 0, 0, 1, 0, 0, 0, 1, 0, 0, 0, 1,
    0, 0, 0, 0, 0,
];

// The counts, marks, sums and pending keys.
const PARTS: [u8; 209] = [
    0, 0, 0, 0, 0, 0, 0, 1, 0, 0, 0, 0, 0, 0, 0, 0, 0, 0, 0, 0, 0, 0, 0, 0, 0, 0, 0, 0, 0, 0, 0, 0,
    0, 0, 0, 0, 0, 0, 0, 0, 0, 0, 0, 0, 0, 0, 0, 0, 0, 0, 0, 0, 0, 0, 0, 0, 0, 0, 0, 0, 0, 0, 0, 0,
    0, 0, 0, 0, 0, 0, 0, 0, 0, 0, 0, 0, 0, 0, 0, 0, 0, 0, 0, 0, 0, 0, 0, 0, 1, 0, 0, 0, 0, 0, 0, 0,
    4, 0, 0, 0, 0, 0, 0, 0, 10, 0, 0, 0, 0, 0, 0, 0, 0, 0, 0, 0, 0, 0, 0, 0, 28, 0, 0, 0, 0, 0, 0,
    0, 0, 0, 0, 0, 0, 0, 0, 0, 82, 0, 1, 0, 3, 0, 0, 0, 0, 0, 0, 0, 1, 0, 0, 0, 0, 0, 0, 0, 3, 0,
    0, 0, 0, 0, 0, 0, 1, 0, 0, 0, 0, 0, 0, 0, 9, 0, 0, 0, 0, 0, 0, 0, 3, 0, 0, 0, 0, 0, 0, 0, 9, 0,
    0, 0, 0, 0, 0, 0, 3, 0, 0, 0, 0, 0, 0, 0, 9, 0, 0, 0, 0,
];

// What becomes of the piece on a client lane, or None where memory is short.
fn step(core: &mut RankCore<Field>) -> Option<Outcome>
    requires { total_count (counts_of core.old) ≤ 2 ^ 62 }
{
    match view(&PIECE) {
        Seen::Whole { frame, .. } => match core.step(LaneKind::Client, &frame) {
            Ok(outcome) => Some(outcome),
            Err(_) => None,
        },
        _ => None,
    }
}

// A head and the parts behind it.
fn joined(alloc: Global, head: &[u8]) -> Result<Vec<u8>, NoMemory> {
    let mut bytes = Vec::new(alloc);
    bytes.extend_from_slice(head)?;
    bytes.extend_from_slice(&PARTS)?;
    Ok(bytes)
}

// The core that these bytes spell is saved again; with the bytes it gives what becomes of the piece at it.
fn again(
    alloc: Global,
    shape: &Shape,
    head: &[u8],
) -> Result<(Vec<u8>, Option<Outcome>), RecoverFault> {
    shape.valid();
    let bytes = joined(alloc, head)?;
    let mut core = RankCore::<Field>::recover(alloc, shape, 0, bytes.as_slice())?;
    let saved = core.save_bytes(alloc)?;
    Ok((saved, step(&mut core)))
}

// Why these bytes are refused.
fn refused(alloc: Global, shape: &Shape, head: &[u8]) -> Option<RecoverFault> {
    match again(alloc, shape, head) {
        Ok(_) => None,
        Err(fault) => Some(fault),
    }
}

#[test]
fn a_core_is_saved(rt: HostRuntime) {
    let shape = Shape::of(&NUMBERS).expect(&rt, "a shape");
    let mut core = RankCore::<Field>::new(rt.alloc(), &shape, 0).expect(&rt, "memory");
    assert_eq!(rt; step(&mut core), Some(Outcome::Accepted));
    let saved = core.save_bytes(rt.alloc()).expect(&rt, "memory");
    let wanted = joined(rt.alloc(), &HEAD_3).expect(&rt, "memory");
    assert_eq!(rt; saved.len(), 249);
    assert_eq!(rt; saved.as_slice() == wanted.as_slice(), true);
}

#[test]
fn a_saved_core_goes_on(rt: HostRuntime) {
    let shape = Shape::of(&NUMBERS).expect(&rt, "a shape");
    let wanted = joined(rt.alloc(), &HEAD_3).expect(&rt, "memory");
    let third = again(rt.alloc(), &shape, &HEAD_3).expect(&rt, "a core");
    assert_eq!(rt; third.0.as_slice() == wanted.as_slice(), true);
    assert_eq!(rt; third.1, Some(Outcome::Replay));
    let second = again(rt.alloc(), &shape, &HEAD_2).expect(&rt, "a core");
    assert_eq!(rt; second.0.as_slice() == wanted.as_slice(), true);
    let first = again(rt.alloc(), &shape, &HEAD_1).expect(&rt, "a core");
    assert_eq!(rt; first.0.as_slice() == wanted.as_slice(), true);
    assert_eq!(rt; first.1, Some(Outcome::Replay));
}

#[test]
fn other_bytes_are_refused(rt: HostRuntime) {
    let shape = Shape::of(&NUMBERS).expect(&rt, "a shape");
    let mut none = HEAD_3;
    none[5] = 0;
    let version = Some(RecoverFault::Bad {
        at: 4,
        why: CkptWhy::Version,
    });
    assert_eq!(rt; refused(rt.alloc(), &shape, &none), version);
    let mut signed = HEAD_3;
    signed[6] = 1;
    let samples = Some(RecoverFault::Bad {
        at: 6,
        why: CkptWhy::Shape,
    });
    assert_eq!(rt; refused(rt.alloc(), &shape, &signed), samples);
    let mut numbers = NUMBERS;
    numbers.fields = 2;
    let two_fields = Shape::of(&numbers).expect(&rt, "a shape");
    assert_eq!(rt; refused(rt.alloc(), &two_fields, &HEAD_2), version);
}
