//! Marks and waiting keys as the bytes of a checkpoint, by hand.

ghost use Rattle.std.specs.Prelude.{◌≡◌, ◌<◌};

use mls_assembly::Pending;
use mls_base::faults::NoMemory;
use mls_base::numbers::Numbers;
use mls_base::shape::Shape;
use mls_ckpt::{CkptWhy, Put, RecoverFault, Take};
use mls_ledger::Marks;
use std::alloc::Global;

// Two cells, one step, two fields, ten groups, one parameter and two clients.
const NUMBERS: Numbers = Numbers {
    cells: 2,
    steps: 1,
    groups: 10,
    parameters: 1,
    ranks: 1,
    clients: 2,
    slots: 16,
    silence: 300,
    lives: 5,
    thresholds: 0,
    threshold: [0; 8],
    signed: false,
    fields: 2,
};

// Groups 0, 2 and 9 of the first plane, and group 8 of the second.
const MARKED: [u8; 4] = [5, 2, 0, 1];

// Group 1 of the first plane waits for client 0: of life 2 it has the three samples of client 1.
const WAITING: [u8; 26] = [
    0, 0, 0, 1, 0, 0, 0, 1, 0, 0, 0, 0, 0, 0, 0, 2, 0, 1, 0, 1, 0, 4, 0, 5, 1, 6,
];

fn refusal_of_marks(alloc: Global, shape: &Shape, bytes: &[u8]) -> Option<RecoverFault> {
    match Marks::take(alloc, shape, &mut Take::new(bytes)) {
        Ok(_) => None,
        Err(fault) => Some(fault),
    }
}

fn refusal_of_waiting(
    alloc: Global,
    shape: &Shape,
    marks: &Marks,
    bytes: &[u8],
) -> Option<RecoverFault>
    requires { 0 < shape.now.ranks }
{
    match Pending::take(alloc, shape, 0, marks, &mut Take::new(bytes)) {
        Ok(_) => None,
        Err(fault) => Some(fault),
    }
}

#[test]
fn marks_are_taken_and_put(rt: HostRuntime) -> Result<(), NoMemory> {
    let shape = Shape::of(&NUMBERS).expect(&rt, "a shape");
    let marks = Marks::take(rt.alloc(), &shape, &mut Take::new(&MARKED)).expect(&rt, "marks");
    assert_eq!(rt; marks.counts(), [3, 1].as_slice());
    assert_eq!(rt;
        (marks.has(9, 0), marks.has(9, 1), marks.has(8, 1)),
        (true, false, true)
    );
    let mut out = Put::new(rt.alloc());
    marks.put(&mut out)?;
    assert_eq!(rt; out.finish().as_slice(), MARKED.as_slice());
    let beyond = [5, 2, 0, 4];
    assert_eq!(rt;
        refusal_of_marks(rt.alloc(), &shape, &beyond),
        Some(RecoverFault::Bad {
            at: 3,
            why: CkptWhy::Range,
        })
    );
    Ok(())
}

#[test]
fn a_waiting_key_is_taken_and_put(rt: HostRuntime) -> Result<(), NoMemory> {
    let shape = Shape::of(&NUMBERS).expect(&rt, "a shape");
    let mut marks = Marks::new(rt.alloc(), &shape)?;
    let pending = Pending::take(rt.alloc(), &shape, 0, &marks, &mut Take::new(&WAITING)).expect(
        &rt,
        "a key that waits",
    );
    assert!(rt; !pending.is_empty());
    let mut out = Put::new(rt.alloc());
    pending.put(&mut out)?;
    assert_eq!(rt; out.finish().as_slice(), WAITING.as_slice());
    marks.set(1, 0);
    assert_eq!(rt;
        refusal_of_waiting(rt.alloc(), &shape, &marks, &WAITING),
        Some(RecoverFault::Bad {
            at: 8,
            why: CkptWhy::Range,
        })
    );
    Ok(())
}
