//! What no clause says: that calls succeed with ample memory.

use mls_base::clock::{Clock, FixedClock, SystemClock};
use mls_base::faults::{LoadFault, StoreFault};
use mls_base::gate::{Gate, OpenGate};
use mls_base::memory::{MemFiles, MemKeeper, MemSink};
use mls_base::numbers::Numbers;
use mls_base::outside::{Files, Keeper, Sink};
use mls_base::put::put_all;
use mls_base::row::Row;
use mls_base::shape::Shape;
use mls_base::system::{StdFiles, StdSink};
use std::{fs, io};

fn small() -> Numbers {
    Numbers {
        cells: 10,
        steps: 3,
        groups: 5,
        parameters: 2,
        ranks: 3,
        clients: 2,
        slots: 1,
        silence: 300,
        lives: 3,
        thresholds: 2,
        threshold: [7, 9, 0, 0, 0, 0, 0, 0],
        signed: false,
        fields: 2,
    }
}

#[test]
fn blocks_and_overlaps(rt: HostRuntime) {
    let shape = Shape::of(&small()).expect(&rt, "a shape");
    assert_eq!(rt; shape.planes(), 6);
    assert!(rt; shape.ranks() == 3 && shape.clients() == 2);
    for (rank, first, end) in [(0, 0, 3), (1, 3, 6), (2, 6, 10)] {
        let block = shape.block(rank);
        assert!(rt; block.first == first && block.end == end, "rank {rank}");
    }
    let both = shape.overlap(1, 0);
    assert!(rt; both.first == 3 && both.end == 5);
    let none = shape.overlap(0, 1);
    assert!(rt; none.first == 5 && none.end == 5);
    assert!(rt; shape.rank_of(5) == 1 && shape.client_of(5) == 1);
    assert!(rt; shape.with_ranks(10).is_some() && shape.with_ranks(11).is_none());
}

#[test]
fn rows_hold_samples(rt: HostRuntime) {
    let mut row = Row::new();
    row.push(4);
    row.push(65_535);
    assert_eq!(rt; row.len(), 2);
    assert_eq!(rt; row.at(1), 65_535);
}

#[test]
fn texts_are_written(rt: HostRuntime) {
    let alloc = rt.alloc();
    let fails = vec![in alloc; 1u64].expect(&rt, "memory");
    let mut sink = MemSink::new(alloc, 4, fails).expect(&rt, "memory");
    assert!(rt; put_all(&mut sink, b"abc").is_ok());
    assert!(rt; put_all(&mut sink, b"d").is_err());
    assert!(rt; put_all(&mut sink, b"de").is_err());
    assert!(rt; sink.bytes() == b"abcd".as_slice());
}

#[test]
fn files_in_memory(rt: HostRuntime) {
    let alloc = rt.alloc();
    let mut files = MemFiles::new(alloc, vec![in alloc; 2u64].expect(&rt, "memory"));
    assert!(rt; files.set("a", b"12345").is_ok());
    assert!(rt; files.load(alloc, "a", 5).expect(&rt, "call 0").as_slice() == b"12345".as_slice());
    assert_eq!(rt; files.load(alloc, "a", 4), Err(LoadFault::TooLong));
    assert_eq!(rt; files.save(alloc, "a", b"6"), Err(StoreFault::Failed));
    assert_eq!(rt; files.save(alloc, "b", b"6"), Ok(()));
    assert!(rt; files.held("b") == Some(b"6".as_slice()));
}

#[test]
fn keeper_in_memory(rt: HostRuntime) {
    let alloc = rt.alloc();
    let mut keeper = MemKeeper::new(alloc, vec![in alloc; 1u64].expect(&rt, "memory"));
    assert!(rt;
        keeper
            .put(Vec::from_slice(alloc, b"one").expect(&rt, "memory"))
            .is_ok()
    );
    assert!(rt; keeper.put(Vec::new(alloc)).is_err());
    assert!(rt; keeper.held() == Some(b"one".as_slice()));
    let got = keeper.get(alloc).expect(&rt, "call 2").expect(&rt, "bytes");
    assert!(rt; got.as_slice() == b"one".as_slice());
}

#[test]
fn clocks(rt: HostRuntime) {
    let alloc = rt.alloc();
    let mut fixed = FixedClock::new(vec![in alloc; 3, 5].expect(&rt, "memory"));
    assert!(rt; fixed.now() == 3 && fixed.now() == 5 && fixed.now() == 5);
    let mut system = SystemClock::new(&rt);
    assert!(rt; system.now() < 60);
    OpenGate.pass(0, 0);
}

#[test]
fn standard_output(rt: HostRuntime) {
    let mut sink = StdSink::new(&rt);
    assert!(rt; put_all(&mut sink, b"a line of the test of the sink\n").is_ok());
}

#[test]
fn files_of_the_system(rt: HostRuntime) -> io::Result<()> {
    let alloc = rt.alloc();
    let mut files = StdFiles::new(&rt);
    let name = "mls_base_test_file";
    assert_eq!(rt; files.save(alloc, name, b"some bytes, and more"), Ok(()));
    assert_eq!(rt; files.save(alloc, name, b"some bytes"), Ok(()));
    assert!(rt;
        files.load(alloc, name, 10).expect(&rt, "a file").as_slice() == b"some bytes".as_slice()
    );
    fs::remove_file(&rt, name)?;
    assert_eq!(rt; files.load(alloc, name, 10), Err(LoadFault::Failed));
    Ok(())
}
