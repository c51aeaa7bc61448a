//! The design of two groups, and a piece of it.

use mls_base::memory::MemSink;
use mls_design::*;
use mls_frame::Frame;
use mls_study::{Study, read_study};
use std::alloc::Global;
use std::test::*;

const TWO_GROUPS_TEXT: &[u8] =
    b"melissa-design 1\ngroup 0 sim 0 2707161783\ngroup 0 sim 1 2068313097\ngroup 0 sim 2 2068313097\ngroup 1 sim 0 3122475824\ngroup 1 sim 1 2211639955\ngroup 1 sim 2 2211639955\nend\n";

const TWO_GROUPS: &[u8] =
    b"cells = 1\nsteps = 1\ngroups = 2\nseed = 42\n[[parameters]]\nname = \"x\"\nlow = 0\nhigh = 4294967295\n";

fn study(alloc: Global, text: &[u8]) -> Result<Study, Fail> {
    Ok(read_study(alloc, text).ok().ok_or("a study")?)
}

#[test]
fn design_of_two_groups(rt: HostRuntime) -> Result<(), Fail> {
    let study = study(rt.alloc(), TWO_GROUPS)?;
    let design = Design::new(rt.alloc(), &study).ok().ok_or("memory")?;
    let mut out = MemSink::new(rt.alloc(), 1000, Vec::new(rt.alloc()))
        .ok()
        .ok_or("memory")?;
    assert_eq!(rt; write_design(&study, &design, &mut out), Ok(()));
    assert!(rt; out.bytes() == TWO_GROUPS_TEXT);
    Ok(())
}

#[test]
fn piece_of_a_group(rt: HostRuntime) -> Result<(), Fail> {
    let study = study(rt.alloc(), TWO_GROUPS)?;
    study.valid();
    let design = Design::new(rt.alloc(), &study).ok().ok_or("memory")?;
    let frame = make_piece(rt.alloc(), &study, &design, 0, 1, 0, 0, 0, 0)
        .ok()
        .ok_or("memory")?;
    match frame {
        Frame::Piece(piece) => {
            assert!(rt; piece.samples.as_slice() == [670, 507, 507].as_slice());
            assert_eq!(rt; piece.life, 1);
            assert_eq!(rt; piece.group, 0);
            assert_eq!(rt; piece.step, 0);
            assert_eq!(rt; piece.client, 0);
            assert_eq!(rt; piece.rows, 3);
            assert_eq!(rt; piece.first, 0);
            assert_eq!(rt; piece.count, 1);
        }
        _ => return Err("a piece")?,
    }
    Ok(())
}
