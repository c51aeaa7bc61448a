//! One step, two fields and ten groups: keys by hand.

use mls_base::numbers::Numbers;
use mls_base::shape::Shape;
use mls_ledger::Marks;

const NUMBERS: Numbers = Numbers {
    cells: 1,
    steps: 1,
    groups: 10,
    parameters: 1,
    ranks: 1,
    clients: 1,
    slots: 16,
    silence: 300,
    lives: 5,
    thresholds: 0,
    threshold: [0; 8],
    signed: false,
    fields: 2,
};

#[test]
fn keys_are_set_and_counted_by_plane(rt: HostRuntime) {
    let shape = Shape::of(&NUMBERS).expect(&rt, "a shape");
    let mut marks = Marks::new(rt.alloc(), &shape).expect(&rt, "memory");
    marks.set(9, 1);
    assert_eq!(rt; (marks.has(9, 1), marks.has(9, 0)), (true, false));
    assert_eq!(rt; marks.counts(), [0, 1].as_slice());
    marks.reset();
    assert_eq!(rt; (marks.count(1), marks.has(9, 1)), (0, false));
}
