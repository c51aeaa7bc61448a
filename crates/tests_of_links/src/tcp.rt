//! Connections over the loopback interface.

use mls_tcp::TcpDoor;
use mls_wire::{Door, Link, send_all};
use std::alloc::Global;
use std::net::Net;
use std::test::*;
use std::time::{Duration, Instant};

/// The address of a port that a door could be opened at.
fn open<R: Net + Drop>(alloc: Global, door: &mut TcpDoor<R>) -> Option<String> {
    for port in 47_100..47_200_u32 {
        let addr = format!(in alloc; "localhost:{port}").ok()?;
        if door.listen(addr.as_str()).is_ok() {
            return Some(addr);
        }
    }
    None
}

#[test]
fn bytes_go_over_the_loopback(rt: HostRuntime) -> Result<(), Fail> {
    let alloc = rt.alloc();
    let mut door = TcpDoor::new(&rt);
    let addr = open(alloc, &mut door).ok_or("a port")?;
    let mut near = door.connect(addr.as_str()).ok().ok_or("a connection")?;
    let mut far = door.accept().ok().ok_or("a connection")?;
    assert_eq!(rt; send_all(&mut near, b"hello"), Ok(()));
    let mut buffer = [0u8; 8];
    assert_eq!(rt; far.read(&mut buffer), Ok(5));
    assert!(rt; buffer == *b"hello\0\0\0");
    assert_eq!(rt; door.close(alloc, near), Ok(()));
    assert_eq!(rt; far.read(&mut buffer), Ok(0));
    assert_eq!(rt; door.close(alloc, far), Ok(()));
    Ok(())
}

/// A group's first frame.
const HELLO: &[u8] = &[0, 0, 0, 15, 6, 0, 1, 0, 0, 0, 0, 0, 0, 0, 1, 0, 0, 0, 0];

#[test]
fn silent_peers_are_given_up(rt: HostRuntime) -> Result<(), Fail> {
    let alloc = rt.alloc();
    let first = Duration::from_millis(60);
    let mut door = TcpDoor::with_time_outs(&rt, first, Duration::from_millis(90));
    let addr = open(alloc, &mut door).ok_or("a port")?;
    let mut near = door.connect(addr.as_str()).ok().ok_or("a connection")?;
    let mut far = door.accept().ok().ok_or("a connection")?;
    let mut buffer = [0u8; 32];
    assert!(rt; far.read(&mut buffer).is_err());
    assert_eq!(rt; send_all(&mut near, HELLO), Ok(()));
    assert_eq!(rt; far.read(&mut buffer), Ok(19));
    let before = Instant::now(&rt)?;
    assert!(rt; far.read(&mut buffer).is_err());
    assert!(rt; before.elapsed(&rt)? > Duration::from_millis(75));
    assert_eq!(rt; send_all(&mut far, b"welcome"), Ok(()));
    assert_eq!(rt; near.read(&mut buffer), Ok(7));
    Ok(())
}

#[test]
fn other_names_are_no_addresses(rt: HostRuntime) {
    let mut door = TcpDoor::new(&rt);
    assert!(rt; door.connect("example.org:80").is_err());
    assert!(rt; door.connect("localhost").is_err());
    assert!(rt; door.listen("localhost:65536").is_err());
    assert!(rt; door.accept().is_err());
}
