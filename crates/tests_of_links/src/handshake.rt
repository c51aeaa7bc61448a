//! The pairs of a study, and what is answered to the first frame of a connection.

use mls_base::numbers::Numbers;
use mls_base::shape::Shape;
use mls_frame::{Seen, view};
use mls_wire::{Greeting, Pair, Reply, answer, greet, pairs};
use std::test::*;

fn shape(cells: u32, groups: u32, ranks: u32, clients: u32) -> Option<Shape> {
    Shape::of(&Numbers {
        cells,
        steps: 1,
        groups,
        parameters: 1,
        ranks,
        clients,
        slots: 1,
        silence: 300,
        lives: 3,
        thresholds: 0,
        threshold: [0; 8],
        signed: false,
        fields: 1,
    })
}

/// The pairs that are listed, by rank, then client.
const PAIRS: [(u32, u32); 4] = [(0, 0), (1, 0), (1, 1), (2, 1)];

#[test]
fn pairs_of_three_blocks_and_two_parts(rt: HostRuntime) -> Result<(), Fail> {
    let shape = shape(10, 1, 3, 2).ok_or("a shape")?;
    let all = pairs(rt.alloc(), &shape).ok().ok_or("memory")?;
    assert_eq!(rt; all.len(), 4);
    for (pair, (rank, client)) in all.iter().zip(PAIRS.iter()) {
        assert!(rt;
            *pair
                == Pair {
                    rank: *rank,
                    client: *client
                }
        );
    }
    Ok(())
}

/// The answer to the frame that the bytes spell, for one cell, two groups, one rank and one client.
fn greeting_to(bytes: &[u8]) -> Option<Greeting> {
    let shape = shape(1, 2, 1, 1)?;
    match view(bytes) {
        Seen::Whole { frame, .. } => Some(greet(&shape, &frame)),
        _ => None,
    }
}

#[test]
fn first_frames_are_answered(rt: HostRuntime) {
    let hello = [0, 0, 0, 15, 6, 0, 1, 0, 0, 0, 0, 0, 0, 0, 1, 0, 0, 0, 0];
    let other_group = [0, 0, 0, 15, 6, 0, 1, 0, 0, 0, 7, 0, 0, 0, 1, 0, 0, 0, 0];
    let beat = [0, 0, 0, 9, 2, 0, 0, 0, 0, 0, 0, 0, 1];
    let welcome = Greeting::Welcome {
        group: 0,
        life: 1,
        client: 0,
        rank: 0,
    };
    assert!(rt; greeting_to(&hello) == Some(welcome));
    assert!(rt;
        greeting_to(&other_group)
            == Some(Greeting::Refuse {
                reason: 2,
                value: 7
            })
    );
    assert!(rt;
        greeting_to(&beat)
            == Some(Greeting::Refuse {
                reason: 6,
                value: 0
            })
    );
}

/// What the frame that the bytes spell says to a group.
fn reply_in(bytes: &[u8]) -> Option<Reply> {
    match view(bytes) {
        Seen::Whole { frame, .. } => Some(answer(&frame)),
        _ => None,
    }
}

#[test]
fn answers_are_told_apart(rt: HostRuntime) {
    let welcome = [0, 0, 0, 5, 7, 0, 0, 0, 1];
    let refuse = [0, 0, 0, 6, 8, 2, 0, 0, 0, 7];
    assert!(rt; reply_in(&welcome) == Some(Reply::Welcome { lane: 1 }));
    assert!(rt;
        reply_in(&refuse)
            == Some(Reply::Refused {
                reason: 2,
                value: 7
            })
    );
    assert!(rt; reply_in(&[0, 0, 0, 1, 4]) == Some(Reply::Other));
}
