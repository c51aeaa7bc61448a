use mls_frame::FrameView;
use mls_tape::*;
use std::alloc::Global;
use std::test::*;

/// One lane with the pieces of groups 0 and 1, samples 1, 3, 3 and 5, 1, 1.
const TWO_GROUPS: [u8; 87] = [
    0x4d, 0x54, 0x41, 0x50, 0, 1, 0, 0, 0, 1, 0, 0, 0, 0, 0, 0, 0x46, //
    0, 0, 0, 0x1f, 1, 0, 0, 0, 1, 0, 0, 0, 0, 0, 0, 0, 0, 0, 0, 0, 3, 0, 0, 0, 0, 0, 0, 0, 1, 0, 1,
    0, 3, 0, 3, //
    0, 0, 0, 0x1f, 1, 0, 0, 0, 1, 0, 0, 0, 1, 0, 0, 0, 0, 0, 0, 0, 3, 0, 0, 0, 0, 0, 0, 0, 1, 0, 5,
    0, 1, 0, 1,
];

fn two_groups(alloc: Global) -> Result<Tape, TapeFault> {
    Tape::read(alloc, 1, false, Vec::from_slice(alloc, &TWO_GROUPS)?)
}

#[test]
fn tape_is_read(rt: HostRuntime) -> Result<(), Fail> {
    let tape = two_groups(rt.alloc()).ok().ok_or("a tape")?;
    assert_eq!(rt; tape.lane_count(), 1);
    assert_eq!(rt; tape.bytes().len(), 87);
    if tape.lane_count() == 1 {
        let line = LaneLine {
            lane: 0,
            rank: 0,
            kind: LaneKind::Client,
            events: 2,
            end: LaneEnd::Clean,
        };
        assert_eq!(rt; tape.lane_line(0), line);
        if tape.events(0) == 2 {
            let event = tape.event(0, 1);
            assert_eq!(rt; event.number(), 1);
            assert!(rt; matches!(event.view(), FrameView::Piece(_)));
        }
    }
    Ok(())
}

#[test]
fn plain_schedule_is_put_and_read(rt: HostRuntime) -> Result<(), Fail> {
    let tape = two_groups(rt.alloc()).ok().ok_or("a tape")?;
    let plain = Schedule::plain(rt.alloc(), &tape).ok().ok_or("memory")?;
    let text = plain.put(rt.alloc()).ok().ok_or("memory")?;
    assert_eq!(rt; text.as_slice(), b"0 0\n0 0\n".as_slice());
    assert!(rt; Schedule::read(rt.alloc(), b"0 0\n0 0\n", &tape).is_ok());
    Ok(())
}

#[test]
fn lists_of_two_ranks(rt: HostRuntime) -> Result<(), Fail> {
    let lists = vec![in rt.alloc(); vec![in rt.alloc(); 2u32, 0]?, vec![in rt.alloc(); 1u32]?]?;
    let text = Schedule::of(lists).put(rt.alloc()).ok().ok_or("memory")?;
    assert_eq!(rt; text.as_slice(), b"0 2\n0 0\n1 1\n".as_slice());
    Ok(())
}

#[test]
fn wires_have_no_owner(rt: HostRuntime) {
    let wire = Wire::new(2);
    let event = wire.decoded(1, 7, LaneKind::Client, FrameView::Save);
    assert_eq!(rt; event.number(), 7);
    assert!(rt; event.lanes().belongs(5, 1));
    assert!(rt; !event.lanes().belongs(0, 2));
}
