//! The extrema line of a cell.

ghost use Rattle.std.specs.Prelude.{◌≡◌, ◌<◌, []};
ghost use Rattle.mls_model.specs.ResultText.{extrema_line};
ghost use Rattle.mls_model.specs.SumsText.{sums_extrema};
ghost use Rattle.mls_field.specs.Stands.{shape_of};
ghost use Rattle.mls_field.specs.Kept.{sums_at};
ghost use Rattle.mls_result.specs.Places.{IsCellOf};
ghost use Rattle.mls_text.specs.Writing.{WritesTo};

use crate::lines::extrema_line;
use mls_base::faults::Failed;
use mls_base::outside::Sink;
use mls_base::samples::unshifted;
use mls_base::shape::Shape;
use mls_field::field::Field;
use mls_text::put_bytes;

/// Writes the extrema line of no values.
#[tactic(auto, unfolding(mls_model::specs::ResultText::extrema_line))]
fn put_no_ends<O: Sink>(out: &mut O) -> Result<(), Failed>
    ensures { WritesTo O.told O.faults O.sure out.old out.new result (extrema_line []) }
{
    put_bytes(out, b"extrema -\n")
}

/// Writes the least and the greatest of a cell's values. A step is the number of a plane, and a cell is a place in the
/// block.
pub fn put_extrema_line<O: Sink>(
    out: &mut O,
    shape: &Shape,
    field: &Field,
    step: u32,
    cell: u32,
) -> Result<(), Failed>
    requires shape { shape_of field.now ≡ shape.now }
    requires cell { IsCellOf field.now step cell }
    ensures { WritesTo O.told O.faults O.sure out.old out.new result
        (sums_extrema (shape_of field.now).signed (sums_at field.now step cell)) }
{
    let rows = field.rows(step);
    if rows == 0 {
        return put_no_ends(out);
    }
    let signed = shape.signed();
    let extrema = field.extrema(step, cell);
    let least = unshifted(signed, extrema.least());
    let greatest = unshifted(signed, extrema.greatest());
    extrema_line(least, greatest).put(out)
}
