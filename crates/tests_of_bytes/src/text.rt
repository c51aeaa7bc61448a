//! A line, and the number that it begins with.

use mls_base::memory::MemSink;
use mls_text::*;
use std::test::*;

#[test]
fn line_with_a_number(rt: HostRuntime) -> Result<(), Fail> {
    let mut out = MemSink::new(rt.alloc(), 100, Vec::new(rt.alloc()))
        .ok()
        .ok_or("memory")?;
    let mut line = Line::new();
    line.number(7u32);
    line.text(b" lanes");
    assert_eq!(rt; line.put(&mut out), Ok(()));
    assert_eq!(rt; put_bytes(&mut out, b"\n"), Ok(()));
    assert!(rt; out.bytes() == b"7 lanes\n".as_slice());
    assert!(rt; number_before(out.bytes(), b' ') == Some((7, b"lanes\n".as_slice())));
    Ok(())
}
