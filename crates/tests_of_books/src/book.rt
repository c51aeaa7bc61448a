//! A book of a rank of one cell, one step, two groups, one parameter and one client, under sample kind u16. Lane 0 is a
//! client's, lane 1 a control lane.

ghost use Rattle.std.specs.Prelude.{◌<◌};

use mls_base::faults::NoMemory;
use mls_base::memory::MemKeeper;
use mls_base::numbers::Numbers;
use mls_base::shape::Shape;
use mls_book::{Book, BookFault, Offered};
use mls_field::field::Field;
use mls_frame::{Seen, view};
use mls_rank::{LaneKind, Outcome};
use mls_tape::{Lanes, Wire};
use std::alloc::Global;

const NUMBERS: Numbers = Numbers {
    cells: 1,
    steps: 1,
    groups: 2,
    parameters: 1,
    ranks: 1,
    clients: 1,
    slots: 16,
    silence: 300,
    lives: 5,
    thresholds: 0,
    threshold: [0; 8],
    signed: false,
    fields: 1,
};

const CLIENT: u32 = 0;

const CONTROL: u32 = 1;

// The piece of group 0, plane 0 and life 1 with the samples 1, 3 and 3.
const PIECE: [u8; 35] = [
    0, 0, 0, 31, 1, 0, 0, 0, 1, 0, 0, 0, 0, 0, 0, 0, 0, 0, 0, 0, 3, 0, 0, 0, 0, 0, 0, 0, 1, 0, 1,
    0, 3, 0, 3,
];

const SAVE: [u8; 5] = [0, 0, 0, 1, 4];

const CRASH: [u8; 5] = [0, 0, 0, 1, 5];

/// A book whose keeper's calls with these numbers fail.
fn new_book(
    alloc: Global,
    shape: &Shape,
    fails: Vec<u64>,
) -> Result<Book<Wire, Field, MemKeeper>, NoMemory>
    requires { 0 < shape.now.ranks }
{
    match Book::new(alloc, Wire::new(2), shape, 0, MemKeeper::new(alloc, fails)) {
        Ok(book) => Ok(book),
        Err(_) => Err(NoMemory),
    }
}

/// What becomes of an event of a lane, or None where the bytes spell none.
fn offer(
    alloc: Global,
    book: &mut Book<Wire, Field, MemKeeper>,
    lane: u32,
    number: u64,
    bytes: &[u8],
) -> Option<Result<Offered, BookFault>> {
    let Seen::Whole { frame, .. } = view(bytes) else {
        return None;
    };
    let wire = *book.lanes();
    if lane >= wire.lanes() {
        return None;
    }
    let kind = match lane {
        CLIENT => LaneKind::Client,
        _ => LaneKind::Control,
    };
    let event = wire.decoded(lane, number, kind, frame);
    Some(book.offer(alloc, &event))
}

/// The answer that an event was taken.
fn taken(place: u64, outcome: Outcome) -> Option<Result<Offered, BookFault>> {
    Some(Ok(Offered::Taken { place, outcome }))
}

#[test]
fn crashes_go_back_to_the_last_save(rt: HostRuntime) -> Result<(), NoMemory> {
    let alloc = rt.alloc();
    let shape = Shape::of(&NUMBERS).expect(&rt, "a shape");
    let mut book = new_book(alloc, &shape, Vec::new(alloc))?;
    assert_eq!(rt;
        offer(alloc, &mut book, CONTROL, 0, &SAVE),
        taken(0, Outcome::Save)
    );
    assert_eq!(rt;
        offer(alloc, &mut book, CLIENT, 0, &PIECE),
        taken(1, Outcome::Accepted)
    );
    assert_eq!(rt;
        offer(alloc, &mut book, CONTROL, 1, &CRASH),
        taken(2, Outcome::Crash)
    );
    assert_eq!(rt; book.core().counts().accepted, 0);
    assert_eq!(rt;
        offer(alloc, &mut book, CLIENT, 1, &PIECE),
        taken(3, Outcome::Accepted)
    );
    assert_eq!(rt;
        offer(alloc, &mut book, CONTROL, 2, &SAVE),
        taken(4, Outcome::Save)
    );
    assert_eq!(rt;
        offer(alloc, &mut book, CONTROL, 3, &CRASH),
        taken(5, Outcome::Crash)
    );
    assert_eq!(rt;
        offer(alloc, &mut book, CLIENT, 1, &PIECE),
        Some(Ok(Offered::Stale { taken: 2 }))
    );
    assert_eq!(rt; book.journal(), [1, 0, 1, 0, 1, 1].as_slice());
    let finished = book.finish();
    assert_eq!(rt; finished.core.counts().accepted, 1);
    assert_eq!(rt; finished.keeper.held().map(|bytes| bytes.len()), Some(249));
    Ok(())
}

#[test]
fn a_failed_put_leaves_the_book(rt: HostRuntime) -> Result<(), NoMemory> {
    let alloc = rt.alloc();
    let shape = Shape::of(&NUMBERS).expect(&rt, "a shape");
    let fails = vec![in alloc; 0u64; 1]?;
    let mut book = new_book(alloc, &shape, fails)?;
    book.reserve(2)?;
    assert_eq!(rt;
        offer(alloc, &mut book, CLIENT, 0, &PIECE),
        taken(0, Outcome::Accepted)
    );
    assert_eq!(rt;
        offer(alloc, &mut book, CONTROL, 0, &SAVE),
        Some(Err(BookFault::KeeperFault))
    );
    assert_eq!(rt; (book.journal().len(), book.had_save()), (1, false));
    assert_eq!(rt; book.store_fault(), Some(BookFault::KeeperFault));
    assert_eq!(rt; book.keeper().held().map(|bytes| bytes.len()), None);
    assert_eq!(rt;
        offer(alloc, &mut book, CONTROL, 0, &SAVE),
        taken(1, Outcome::Save)
    );
    assert_eq!(rt; book.keeper().held().map(|bytes| bytes.len()), Some(249));
    Ok(())
}
