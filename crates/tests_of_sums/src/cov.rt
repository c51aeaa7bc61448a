//! The parts of the indices of worked studies.

ghost use Rattle.std.specs.Prelude.{◌≡◌, ◌<◌, ◌∷◌, [], length};
ghost use Rattle.mls_cov.specs.Standing.{parameters_of};

use mls_base::row::Row;
use mls_cov::{IndexParts, Martinez};

fn row_of(a: u16, b: u16, c: u16) -> Row
    ensures { result ≡ a ∷ b ∷ c ∷ [] }
{
    let mut row = Row::new();
    row.push(a);
    row.push(b);
    row.push(c);
    row
}

fn summed(rows: &[[u16; 3]]) -> Martinez
    requires { length rows.now < 65536 }
    ensures { parameters_of result ≡ 1 }
{
    let mut sums = Martinez::new(1);
    for row in rows {
        sums.add(&row_of(row[0], row[1], row[2]));
    }
    sums
}

#[test]
fn parts_of_worked_studies(rt: HostRuntime) {
    let two_groups = IndexParts {
        cov_b: 4,
        cov_a: -8,
        var_a: 16,
        var_b: 4,
        var_c: 4,
    };
    assert_eq!(rt; summed(&[[1, 3, 3], [5, 1, 1]]).index(0), two_groups);
    let three_groups = IndexParts {
        cov_b: 3,
        cov_a: -6,
        var_a: 6,
        var_b: 2,
        var_c: 6,
    };
    assert_eq!(rt;
        summed(&[[2, 0, 0], [1, 0, 1], [0, 1, 2]]).index(0),
        three_groups
    );
}
