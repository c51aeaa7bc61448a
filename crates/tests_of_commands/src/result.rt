//! The text of a worked study, and lines of ranks and lanes.

ghost use Rattle.std.specs.Prelude.{◌≡◌, ◌<◌, ◌≤◌, ◌+◌};
ghost use Rattle.mls_model.specs.Outcomes.{total_count};
ghost use Rattle.mls_rank.specs.Cores.{sizes_of, rank_of, counts_of};

use mls_base::memory::MemSink;
use mls_field::field::Field;
use mls_frame::{Seen, view};
use mls_model::lanes::{LaneEnd, LaneKind, LaneLine};
use mls_model::outcomes::Counts;
use mls_rank::RankCore;
use mls_result::{write_ranks, write_result};
use mls_study::read_study;
use std::alloc::Global;

// A study of one cell, one step and one parameter that shows all statistics.
const ALL: &[u8] =
    b"cells = 1\nsteps = 1\ngroups = 2\nthresholds = [1, 3]\n[[parameters]]\nname = \"x\"\nlow = 0\nhigh = 9\n";

/// A piece of life 1 with one cell and three rows.
fn piece(group: u8, samples: [u16; 3]) -> [u8; 35] {
    let a = samples[0].to_be_bytes();
    let b = samples[1].to_be_bytes();
    let c = samples[2].to_be_bytes();
    [
        0, 0, 0, 31, 1, 0, 0, 0, 1, 0, 0, 0, group, 0, 0, 0, 0, 0, 0, 0, 3, 0, 0, 0, 0, 0, 0, 0, 1,
        a[0], a[1], b[0], b[1], c[0], c[1],
    ]
}

/// A client's lane of rank 0 that ended clean after so many events.
fn lane(lane: u32, rank: u32, events: u32) -> LaneLine {
    LaneLine {
        lane,
        rank,
        kind: LaneKind::Client,
        events,
        end: LaneEnd::Clean,
    }
}

/// Takes the frame that the bytes spell, where they spell one.
fn step(core: &mut RankCore<Field>, bytes: &[u8])
    requires { total_count (counts_of core.old) < 1000 }
    ensures sizes { sizes_of core.new ≡ sizes_of core.old }
    ensures rank { rank_of core.new ≡ rank_of core.old }
    ensures sum { total_count (counts_of core.new) ≤ total_count (counts_of core.old) + 1 }
{
    if let Seen::Whole { frame, .. } = view(bytes) {
        let _outcome = core.step(LaneKind::Client, &frame);
    }
}

/// The text of a study of one rank that was given these pieces.
fn text_of(
    alloc: Global,
    study: &[u8],
    pieces: &[[u8; 35]; 2],
    lanes: &[LaneLine],
) -> Option<MemSink> {
    let Ok(study) = read_study(alloc, study) else {
        return None;
    };
    let shape = study.shape();
    if shape.ranks() != 1 || shape.clients() != 1 {
        return None;
    }
    let Ok(mut core) = RankCore::<Field>::new(alloc, &shape, 0) else {
        return None;
    };
    step(&mut core, &pieces[0]);
    step(&mut core, &pieces[1]);
    let Ok(mut sink) = MemSink::new(alloc, 1000, Vec::new(alloc)) else {
        return None;
    };
    match write_result(&study, &[core], lanes, &mut sink) {
        Ok(()) => Some(sink),
        Err(_) => None,
    }
}

#[test]
fn text_of_two_groups(rt: HostRuntime) {
    let pieces = [piece(0, [1, 3, 3]), piece(1, [5, 1, 1])];
    let sink = text_of(rt.alloc(), ALL, &pieces, &[lane(0, 0, 2)]).expect(&rt, "a text");
    let text =
        "melissa-result 1\nstudy cells 1 steps 1 groups 2 parameters 1 ranks 1 clients 1\nrank 0 accepted 2 kept 0 replay 0 stale 0 repeated 0 foreign 0 0 0 0 0 0\nlane 0 rank 0 client events 2 clean\nstep 0 cell 0 groups 2\npower 10 36 154 708\nvariance 44/12\nthird 144/64\nextrema 1 5\nexceed 2 1\nsobol x 1.000000 2.000000 4 -8 16 4 4\nend\n";
    assert_eq!(rt; sink.bytes(), text.as_bytes());
}

#[test]
fn lines_of_ranks_and_lanes(rt: HostRuntime) {
    let mut sink = MemSink::new(rt.alloc(), 1000, Vec::new(rt.alloc())).expect(&rt, "memory");
    let counts = Counts {
        accepted: 12,
        kept: 0,
        replay: 3,
        stale: 0,
        repeated: 0,
        f1: 1,
        f2: 0,
        f3: 0,
        f4: 0,
        f5: 0,
        f6: 2,
    };
    assert!(rt; write_ranks(&[counts, counts], &[lane(3, 1, 7)], &mut sink).is_ok());
    let text =
        "rank 0 accepted 12 kept 0 replay 3 stale 0 repeated 0 foreign 1 0 0 0 0 2\nrank 1 accepted 12 kept 0 replay 3 stale 0 repeated 0 foreign 1 0 0 0 0 2\nlane 3 rank 1 client events 7 clean\n";
    assert_eq!(rt; sink.bytes(), text.as_bytes());
}
