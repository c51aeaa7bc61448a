//! Sums, extrema and numbers above thresholds of the samples of two groups, by hand.

use mls_base::numbers::Numbers;
use mls_base::shape::Shape;
use mls_power::exceed::Exceed;
use mls_power::extrema::Extrema;
use mls_power::power::{Power, Powers};

const TWO_GROUPS: [u16; 4] = [1, 3, 5, 1];

// The values -1, 3, 5, -1.
const SIGNED: [u16; 4] = [32767, 32771, 32773, 32767];

fn shape_of_two_thresholds() -> Option<Shape> {
    Shape::of(&Numbers {
        cells: 1,
        steps: 1,
        groups: 2,
        parameters: 1,
        ranks: 1,
        clients: 1,
        slots: 1,
        silence: 1,
        lives: 1,
        thresholds: 2,
        threshold: [1, 3, 0, 0, 0, 0, 0, 0],
        signed: false,
        fields: 1,
    })
}

#[test]
fn sums(rt: HostRuntime) {
    for (samples, signed, p1, p3, variance, third) in [
        (&TWO_GROUPS[..], false, 10, 154, 44, 144),
        (&SIGNED[..], true, 6, 150, 108, 240),
    ] {
        let mut power = Power::new();
        for x in samples {
            assert!(rt; power.count() < 131_070);
            power.add(*x);
        }
        let powers = Powers {
            p1,
            p2: 36,
            p3,
            p4: 708,
        };
        assert_eq!(rt; power.powers(signed), powers);
        assert_eq!(rt;
            (power.variance_top(), power.third_top()),
            (variance, third)
        );
    }
}

#[test]
fn extrema_and_numbers_above(rt: HostRuntime) {
    let shape = shape_of_two_thresholds().expect(&rt, "a shape");
    let mut extrema = Extrema::new();
    let mut exceed = Exceed::new();
    for x in TWO_GROUPS {
        assert!(rt; exceed.count() < 131_070);
        extrema.add(x);
        exceed.add(&shape, x);
    }
    assert_eq!(rt; (extrema.least(), extrema.greatest()), (1, 5));
    assert_eq!(rt;
        (exceed.above(0), exceed.above(1), exceed.above(2)),
        (2, 1, 0)
    );
}
