//! A rank of two cells, one step, two groups, one parameter and two clients, under sample kind u16.

ghost use Rattle.std.specs.Prelude.{◌≡◌, ◌<◌, ◌≤◌, ◌+◌};
ghost use Rattle.mls_model.specs.Outcomes.{total_count};
ghost use Rattle.mls_rank.specs.Cores.{sizes_of, rank_of, counts_of};

use mls_base::numbers::Numbers;
use mls_base::shape::Shape;
use mls_field::field::Field;
use mls_frame::{Seen, view};
use mls_rank::{LaneKind, Outcome, RankCore};

const NUMBERS: Numbers = Numbers {
    cells: 2,
    steps: 1,
    groups: 2,
    parameters: 1,
    ranks: 1,
    clients: 2,
    slots: 16,
    silence: 300,
    lives: 5,
    thresholds: 0,
    threshold: [0; 8],
    signed: false,
    fields: 1,
};

// A client's piece of group 0 and plane 0: its life, its samples A, B and C of one cell.
fn piece(life: u8, client: u8, samples: [u8; 3]) -> [u8; 35] {
    [
        0, 0, 0, 31, 1, 0, 0, 0, life, 0, 0, 0, 0, 0, 0, 0, 0, 0, client, 0, 3, 0, 0, 0, client, 0,
        0, 0, 1, 0, samples[0], 0, samples[1], 0, samples[2],
    ]
}

/// What becomes on a client lane of the frame that the bytes spell, or None where they spell none or memory is short.
fn step(core: &mut RankCore<Field>, bytes: &[u8]) -> Option<Outcome>
    requires { total_count (counts_of core.old) < 1000 }
    ensures sizes { sizes_of core.new ≡ sizes_of core.old }
    ensures rank { rank_of core.new ≡ rank_of core.old }
    ensures sum { total_count (counts_of core.new) ≤ total_count (counts_of core.old) + 1 }
{
    match view(bytes) {
        Seen::Whole { frame, .. } => match core.step(LaneKind::Client, &frame) {
            Ok(outcome) => Some(outcome),
            Err(_) => None,
        },
        _ => None,
    }
}

/// P1 of the first two cells of the block at plane 0, or None where it has fewer.
fn first_sums(core: &RankCore<Field>) -> Option<(i64, i64)> {
    let block = core.shape().block(core.rank());
    if block.end - block.first < 2 {
        return None;
    }
    let field = core.folded();
    Some((field.powers(0, 0).p1, field.powers(0, 1).p1))
}

#[test]
fn replay_is_counted_and_not_added(rt: HostRuntime) {
    let shape = Shape::of(&NUMBERS).expect(&rt, "a shape");
    let mut core = RankCore::<Field>::new(rt.alloc(), &shape, 0).expect(&rt, "memory");
    let first = piece(1, 0, [1, 3, 3]);
    let second = piece(1, 1, [2, 4, 4]);
    assert_eq!(rt; step(&mut core, &second), Some(Outcome::Kept));
    assert_eq!(rt; step(&mut core, &first), Some(Outcome::Accepted));
    assert_eq!(rt; step(&mut core, &first), Some(Outcome::Replay));
    let counts = core.counts();
    assert_eq!(rt; (counts.accepted, counts.kept, counts.replay), (1, 1, 1));
    assert_eq!(rt;
        (core.accepted(0), core.has(0, 0), core.has(1, 0)),
        (1, true, false)
    );
    assert_eq!(rt; first_sums(&core), Some((4, 6)));
    core.reset();
    assert_eq!(rt; core.counts().accepted, 0);
}
