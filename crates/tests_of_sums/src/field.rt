//! Sums of a small block that were worked out by hand.

ghost use Rattle.std.specs.Prelude.{◌≡◌, ℕ, ◌+◌, ◌*◌, ◌<◌, ◌≤◌, length, IfOk, IfSome};
ghost use Rattle.mls_model.specs.Studies.{planes};
ghost use Rattle.mls_model.specs.Blocks.{block, width};
ghost use Rattle.mls_field.specs.Stands.{shape_of, rank_of, row_count};

use mls_base::faults::NoMemory;
use mls_base::numbers::Numbers;
use mls_base::rows::Rows;
use mls_base::shape::Shape;
use mls_ckpt::{CkptWhy, Put, RecoverFault, Take};
use mls_cov::IndexParts;
use mls_field::field::Field;
use mls_field::fold::RowFold;
use mls_power::power::Powers;
use std::alloc::Global;

#[derive(Drop)]
struct Grid<'a> {
    samples: &'a [u16],
    rows: u32,
    cells: u32,
    ghost whole: { rows * cells ≤ length samples.now },
}

impl<'a> Rows for Grid<'a> {
    ghost use Rattle.std.specs.Prelude.{◌+◌, ◌*◌, slice_index};

    ghost row_count = { λ g. g.rows };

    ghost place_count = { λ g. g.cells };

    ghost sample = { λ g row place. slice_index g.samples.now (row * g.cells + place) };

    fn rows(&self) -> u32 {
        self.rows
    }

    fn cells(&self) -> u32 {
        self.cells
    }

    fn at(&self, row: u32, cell: u32) -> u16 {
        self.samples[row as usize * self.cells as usize + cell as usize]
    }
}

fn shape_of_two_cells() -> Option<Shape>
    ensures ranks { IfSome result (λ shape. shape.ranks ≡ 1) }
    ensures planes { IfSome result (λ shape. planes shape ≡ 2) }
    ensures groups { IfSome result (λ shape. shape.groups ≡ 9) }
{
    Shape::of(&Numbers {
        cells: 2,
        steps: 2,
        groups: 9,
        parameters: 1,
        ranks: 1,
        clients: 1,
        slots: 1,
        silence: 300,
        lives: 3,
        thresholds: 2,
        threshold: [1, 3, 0, 0, 0, 0, 0, 0],
        signed: false,
        fields: 1,
    })
}

// Adds a block to the second plane nine times, so that eight are added together and one waits.
fn add_nine_times(field: &mut Field, shape: &Shape, block: &Grid<'_>)
    requires shape { shape_of field.old ≡ shape.now }
    requires rank { rank_of field.old ≡ 0 }
    requires rank_in { 0 < shape.now.ranks }
    requires none { (plane : ℕ) → row_count field.old plane ≡ 0 }
    ensures shape { shape_of field.new ≡ shape.now }
    ensures rank { rank_of field.new ≡ 0 }
{
    let span = shape.block(0);
    let fits = block.rows == shape.parameters() + 2 && block.cells == span.end - span.first;
    if fits && 1 < shape.planes() {
        for _time in 0..9u32 {
            field.add_block(1, block);
        }
    }
}

// What the sums of a cell give: the number of rows, the power sums, V and U.
#[derive(Debug, PartialEq, Eq, Drop)]
struct Seen {
    rows: u32,
    powers: Powers,
    variance_top: i128,
    third_top: i128,
}

// What else they give: the least and the greatest sample, the numbers above 1 and above 3, and the parts of the index.
#[derive(Debug, PartialEq, Eq, Drop)]
struct SeenFurther {
    least: u16,
    greatest: u16,
    above: (u32, u32),
    parts: IndexParts,
}

fn look(field: &Field, shape: &Shape, step: u32, cell: u32) -> Option<Seen>
    requires shape { shape_of field.now ≡ shape.now }
    requires rank { rank_of field.now ≡ 0 }
    requires rank_in { 0 < shape.now.ranks }
{
    let span = shape.block(0);
    if step < shape.planes() && cell < span.end - span.first {
        Some(Seen {
            rows: field.rows(step),
            powers: field.powers(step, cell),
            variance_top: field.variance_top(step, cell),
            third_top: field.third_top(step, cell),
        })
    } else {
        None
    }
}

fn look_further(field: &Field, shape: &Shape, step: u32, cell: u32) -> Option<SeenFurther>
    requires shape { shape_of field.now ≡ shape.now }
    requires rank { rank_of field.now ≡ 0 }
    requires rank_in { 0 < shape.now.ranks }
{
    let span = shape.block(0);
    if step < shape.planes() && cell < span.end - span.first {
        let extrema = field.extrema(step, cell);
        let exceed = field.exceed(step, cell);
        Some(SeenFurther {
            least: extrema.least(),
            greatest: extrema.greatest(),
            above: (exceed.above(0), exceed.above(1)),
            parts: field.martinez(step, cell).index(0),
        })
    } else {
        None
    }
}

fn wanted(rows: u32, p1: i64, p2: u64, p3: i128, p4: i128, variance_top: i128) -> Option<Seen> {
    let powers = Powers { p1, p2, p3, p4 };
    Some(Seen {
        rows,
        powers,
        variance_top,
        third_top: 0,
    })
}

fn wanted_further(least: u16, greatest: u16, above: (u32, u32)) -> Option<SeenFurther> {
    let parts = IndexParts {
        cov_b: 0,
        cov_a: 0,
        var_a: 0,
        var_b: 0,
        var_c: 0,
    };
    Some(SeenFurther {
        least,
        greatest,
        above,
        parts,
    })
}

// The bytes of its part of a checkpoint.
fn part_of(alloc: Global, field: &Field) -> Result<Vec<u8>, NoMemory> {
    let mut out = Put::new(alloc);
    field.put(&mut out)?;
    Ok(out.finish())
}

// What a part says, with no row of the first plane and nine of the second.
fn taken(alloc: Global, shape: &Shape, bytes: &[u8]) -> Result<Field, RecoverFault>
    requires ranks { shape.now.ranks ≡ 1 }
    requires planes { planes shape.now ≡ 2 }
    requires groups { shape.now.groups ≡ 9 }
    ensures shape { IfOk result (λ field. shape_of field ≡ shape.now) }
    ensures rank { IfOk result (λ field. rank_of field ≡ 0) }
{
    let counts = [0, 9];
    Field::take(alloc, shape, 0, &counts, &mut Take::new(bytes))
}

fn refusal(alloc: Global, shape: &Shape, bytes: &[u8]) -> Option<RecoverFault>
    requires ranks { shape.now.ranks ≡ 1 }
    requires planes { planes shape.now ≡ 2 }
    requires groups { shape.now.groups ≡ 9 }
{
    match taken(alloc, shape, bytes) {
        Ok(_) => None,
        Err(fault) => Some(fault),
    }
}

// A part has 124 bytes for each cell. In that of the last of four cells the sum of A · C stands at its place 108: nine times
// 2 · 9. As A is the same in all rows, no other sum can stand there.
#[test]
fn nine_groups_are_put_and_taken(rt: HostRuntime) -> Result<(), NoMemory> {
    let shape = shape_of_two_cells().expect(&rt, "a shape of two cells");
    let mut field = Field::new(rt.alloc(), &shape, 0)?;
    let block = Grid {
        samples: &[1, 2, 3, 4, 9, 9],
        rows: 3,
        cells: 2,
    };
    add_nine_times(&mut field, &shape, &block);
    let mut bytes = part_of(rt.alloc(), &field)?;
    assert_eq!(rt; bytes.len(), 496);
    let again = taken(rt.alloc(), &shape, bytes.as_slice()).expect(&rt, "a part");
    assert_eq!(rt; look(&again, &shape, 0, 0), wanted(0, 0, 0, 0, 0, 0));
    assert_eq!(rt;
        look(&again, &shape, 1, 1),
        wanted(9, 54, 180, 648, 2448, 324)
    );
    assert_eq!(rt;
        look_further(&again, &shape, 1, 1),
        wanted_further(2, 4, (18, 9))
    );
    let same = part_of(rt.alloc(), &again)?;
    assert_eq!(rt; same.as_slice(), bytes.as_slice());
    bytes[487] = 163;
    assert_eq!(rt;
        refusal(rt.alloc(), &shape, bytes.as_slice()),
        Some(RecoverFault::Bad {
            at: 480,
            why: CkptWhy::Range,
        })
    );
    Ok(())
}

#[test]
fn nine_groups_of_two_cells(rt: HostRuntime) -> Result<(), NoMemory> {
    let shape = shape_of_two_cells().expect(&rt, "a shape of two cells");
    let mut field = Field::new(rt.alloc(), &shape, 0)?;
    let block = Grid {
        samples: &[1, 2, 3, 4, 9, 9],
        rows: 3,
        cells: 2,
    };
    add_nine_times(&mut field, &shape, &block);
    let none = wanted(0, 0, 0, 0, 0, 0);
    assert_eq!(rt; look(&field, &shape, 0, 0), none);
    assert_eq!(rt;
        look(&field, &shape, 1, 0),
        wanted(9, 36, 90, 252, 738, 324)
    );
    assert_eq!(rt;
        look(&field, &shape, 1, 1),
        wanted(9, 54, 180, 648, 2448, 324)
    );
    assert_eq!(rt;
        look_further(&field, &shape, 1, 0),
        wanted_further(1, 3, (9, 0))
    );
    assert_eq!(rt;
        look_further(&field, &shape, 1, 1),
        wanted_further(2, 4, (18, 9))
    );
    field.reset();
    assert_eq!(rt; look(&field, &shape, 1, 1), none);
    assert_eq!(rt;
        look_further(&field, &shape, 1, 1),
        wanted_further(65535, 0, (0, 0))
    );
    Ok(())
}
