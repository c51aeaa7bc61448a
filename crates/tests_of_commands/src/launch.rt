//! A run of a small study.

use mls_base::memory::MemSink;
use mls_base::numbers::Numbers;
use mls_base::shape::Shape;
use mls_launch::*;
use std::test::*;

const THREE_GROUPS: &[u8] = b"tick 0\nbeat 0 1 8\ntick 11\ndone 0 1 12\ntick 13\ntick 24\n";

const THREE_GROUPS_TEXT: &[u8] =
    b"melissa-watch 1\n0 start 0 1\n0 start 1 1\n11 restart-rank 0\n11 restart 1 2\n13 start 2 1\n24 restart-rank 0\n24 giveup 1\n24 restart 2 2\nend running 1 waiting 0 finished 1 givenup 1\n";

fn shape(groups: u32, slots: u32, silence: u32, lives: u32) -> Option<Shape> {
    Shape::of(&Numbers {
        cells: 1,
        steps: 1,
        groups,
        parameters: 1,
        ranks: 1,
        clients: 1,
        slots,
        silence,
        lives,
        thresholds: 0,
        threshold: [0; 8],
        signed: false,
        fields: 1,
    })
}

#[test]
fn watch_text_of_three_groups(rt: HostRuntime) -> Result<(), Fail> {
    let shape = shape(3, 2, 10, 2).ok_or("a shape")?;
    let events = read_events(rt.alloc(), THREE_GROUPS).ok().ok_or("events")?;
    let mut out = MemSink::new(rt.alloc(), 1000, Vec::new(rt.alloc()))
        .ok()
        .ok_or("memory")?;
    assert_eq!(rt; write_watch(rt.alloc(), &shape, &events, &mut out), Ok(()));
    assert!(rt; out.bytes() == THREE_GROUPS_TEXT);
    Ok(())
}

#[test]
fn steps_of_a_watch(rt: HostRuntime) -> Result<(), Fail> {
    let shape = shape(2, 1, 5, 2).ok_or("a shape")?;
    let mut watch = Watch::new(rt.alloc(), &shape).ok().ok_or("memory")?;
    let mut actions = Vec::new(rt.alloc());
    assert_eq!(rt; watch.step(&Event::Tick { now: 4 }, &mut actions), Ok(4));
    assert_eq!(rt;
        watch.step(&Event::RankBeat { rank: 0, now: 2 }, &mut actions),
        Ok(4)
    );
    assert!(rt; actions.as_slice() == [Action::Start { group: 0, life: 1 }].as_slice());
    let totals = watch.totals();
    assert_eq!(rt; totals.running, 1);
    assert_eq!(rt; totals.waiting, 1);
    assert_eq!(rt; totals.finished, 0);
    assert_eq!(rt; totals.given_up, 0);
    Ok(())
}
