//! The worked rows of the store, and that calls succeed with ample memory.
//!
//! The six calls of a beginning (sync, length and head of each area) are followed by those of a put: gate and sync,
//! front, payload and sync, gate and sync. So the first put has the calls 0 to 12 of its disk, the second 13 to 19
//! and the third 20 to 26.

use mls_base::outside::Keeper;
use mls_slot::disk::Disk;
use mls_slot::files::FileDisk;
use mls_slot::keeper::SlotKeeper;
use mls_slot::memory::MemDisk;
use std::alloc::Global;
use std::{fs, io};

/// A put of one byte, and whether it answered Ok.
fn put(alloc: Global, keeper: &mut SlotKeeper<MemDisk>, byte: u8) -> bool {
    match Vec::from_slice(alloc, &[byte]) {
        Ok(bytes) => keeper.put(bytes).is_ok(),
        Err(_) => false,
    }
}

/// Puts of `01` and `02` on an empty disk, and then of others, and whether the last of them answered Ok.
fn after_puts(alloc: Global, fails: Vec<u64>, others: &[u8]) -> (SlotKeeper<MemDisk>, bool) {
    let mut keeper = SlotKeeper::new(MemDisk::new(alloc, fails));
    let mut done = put(alloc, &mut keeper, 1) && put(alloc, &mut keeper, 2);
    for byte in others.iter() {
        done = put(alloc, &mut keeper, *byte);
    }
    (keeper, done)
}

/// The one byte that a new keeper over a disk gives.
fn given(alloc: Global, disk: MemDisk) -> Option<u8> {
    match SlotKeeper::new(disk).get(alloc) {
        Ok(Some(bytes)) => bytes.first().copied(),
        _ => None,
    }
}

/// Whether a new keeper over each image of a disk gives this byte.
fn gives_always(alloc: Global, disk: &MemDisk, byte: u8) -> bool {
    for pick in 0..32u64 {
        let Ok(image) = disk.image(alloc, pick) else {
            return false;
        };
        if given(alloc, image) != Some(byte) {
            return false;
        }
    }
    true
}

/// Whether, after a put of `04` that is stopped behind its first write, each image of each image gives this byte.
fn gives_after_another_stop(alloc: Global, disk: &MemDisk, byte: u8) -> bool {
    for pick in 0..32u64 {
        let Ok(image) = disk.image(alloc, pick) else {
            return false;
        };
        let Ok(fails) = Vec::from_slice(alloc, &[7u64]) else {
            return false;
        };
        let mut keeper = SlotKeeper::new(image.with_fails(fails));
        if put(alloc, &mut keeper, 4) || !gives_always(alloc, keeper.disk(), byte) {
            return false;
        }
    }
    true
}

#[test]
fn two_puts(rt: HostRuntime) {
    let alloc = rt.alloc();
    let (mut keeper, done) = after_puts(alloc, Vec::new(alloc), &[]);
    assert!(rt; done);
    let got = keeper.get(alloc).expect(&rt, "a get").expect(&rt, "bytes");
    assert!(rt; got.as_slice() == b"\x02".as_slice());
    let mut disk = keeper.disk().image(alloc, 0).expect(&rt, "memory");
    let mut area = [0u8; 12];
    assert_eq!(rt; disk.read(0, 0, &mut area), Ok(11));
    assert!(rt; area.split_at(11).0 == b"\x01\x00\x00\x00\x00\x00\x00\x00\x00\x01\x01".as_slice());
    assert_eq!(rt; disk.read(1, 0, &mut area), Ok(11));
    assert!(rt; area.split_at(11).0 == b"\x01\x01\x00\x00\x00\x00\x00\x00\x00\x01\x02".as_slice());
}

#[test]
fn stopped_puts(rt: HostRuntime) {
    let alloc = rt.alloc();
    let cases = [
        ([24u64, 24].as_slice(), [3u8].as_slice(), 2),
        ([26u64, 37].as_slice(), [3u8, 4].as_slice(), 3),
    ];
    for (fails, others, byte) in cases {
        let fails = Vec::from_slice(alloc, fails).expect(&rt, "memory");
        let (keeper, done) = after_puts(alloc, fails, others);
        assert!(rt; !done && gives_always(alloc, keeper.disk(), byte), "{byte}");
    }
}

#[test]
fn stopped_twice(rt: HostRuntime) {
    let alloc = rt.alloc();
    let fails = Vec::from_slice(alloc, &[24u64]).expect(&rt, "memory");
    let (keeper, done) = after_puts(alloc, fails, &[3]);
    assert!(rt; !done && gives_after_another_stop(alloc, keeper.disk(), 2));
}

#[test]
fn files_of_the_system(rt: HostRuntime) -> io::Result<()> {
    let alloc = rt.alloc();
    let rank = 4_000_000_000;
    let mut disk = FileDisk::new(&rt, rank);
    assert_eq!(rt; disk.len(0), Ok(0));
    let mut keeper = SlotKeeper::new(disk);
    assert!(rt; keeper.get(alloc).expect(&rt, "a get").is_none());
    for text in [b"one".as_slice(), b"a longer one", b"three"] {
        let bytes = Vec::from_slice(alloc, text).expect(&rt, "memory");
        assert_eq!(rt; keeper.put(bytes), Ok(()));
        let mut again = SlotKeeper::new(FileDisk::new(&rt, rank));
        let got = again.get(alloc).expect(&rt, "a get").expect(&rt, "bytes");
        assert!(rt; got.as_slice() == text);
    }
    assert_eq!(rt; FileDisk::new(&rt, rank).len(1), Ok(22));
    fs::remove_file(&rt, "checkpoints/rank-4000000000.0")?;
    fs::remove_file(&rt, "checkpoints/rank-4000000000.1")?;
    fs::remove_dir(&rt, "checkpoints")
}
