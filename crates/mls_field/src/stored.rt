//! The cells of planes, read from bytes into their columns.

ghost use Rattle.std.specs.Prelude.{◌≡◌, ℕ, ◌+◌, ◌*◌, ◌^◌, ◌<◌, ◌≤◌, length, slice_index, OnOk};
ghost use Rattle.mls_model.specs.Studies.{planes};
ghost use Rattle.mls_model.specs.Blocks.{block, width};
ghost use Rattle.mls_ckpt.specs.CellParts.{plane_at, cells_at};
ghost use Rattle.mls_field.specs.Answered.{ReadsThese};
ghost use Rattle.mls_field.specs.ColumnSums.{sums_size};
ghost use Rattle.mls_field.specs.PackedCells.{PackedWithin, packed_plane, packed_cells};
ghost use Rattle.mls_field.specs.StoredCells.{Stored, SameCell};

use crate::taken::{Cell, take_cell};
use mls_base::shape::Shape;
use mls_ckpt::{RecoverFault, Take};
use mls_power::ends::EXTREMA_NUMBERS;

// Puts the sums of a cell into their columns, from a row on.
fn put_sums(words: &mut [u64], row: usize, size: usize, places: usize, place: usize, cell: &[u64])
    requires place { place < places }
    requires row { row + size < 2 ^ 63 }
    requires columns { (row + size) * places ≤ length words.old }
    requires cell { size ≤ length cell.now }
    ensures { Stored row size places place words.old words.new cell.now }
{
    for c in 0..size {
        words[(row + c) * places + place] = cell[c];
    }
}

// Puts the least and the greatest sample of a cell into their columns, from a row on.
fn put_ends(ends: &mut [u16], row: usize, size: usize, places: usize, place: usize, cell: &[u16])
    requires place { place < places }
    requires row { row + size < 2 ^ 63 }
    requires columns { (row + size) * places ≤ length ends.old }
    requires cell { size ≤ length cell.now }
    ensures { Stored row size places place ends.old ends.new cell.now }
{
    for c in 0..size {
        ends[(row + c) * places + place] = cell[c];
    }
}

// Puts the numbers above thresholds of a cell into their columns, from a row on.
fn put_numbers(
    numbers: &mut [u32],
    row: usize,
    size: usize,
    places: usize,
    place: usize,
    cell: &[u32],
)
    requires place { place < places }
    requires row { row + size < 2 ^ 63 }
    requires columns { (row + size) * places ≤ length numbers.old }
    requires cell { size ≤ length cell.now }
    ensures { Stored row size places place numbers.old numbers.new cell.now }
{
    for c in 0..size {
        numbers[(row + c) * places + place] = cell[c];
    }
}

// Puts the numbers of a cell to their places.
fn store(
    sums: &mut [u64],
    ends: &mut [u16],
    numbers: &mut [u32],
    shape: &Shape,
    plane: usize,
    places: usize,
    place: usize,
    cell: &Cell,
)
    requires plane_in { plane < planes shape.now }
    requires place_in { place < places }
    requires sums_long { length sums.old ≡ planes shape.now * sums_size shape.now.parameters * places }
    requires ends_long { length ends.old ≡ planes shape.now * 2 * places }
    requires numbers_long { length numbers.old ≡ planes shape.now * length shape.now.thresholds * places }
    ensures sums { let size = sums_size shape.now.parameters in
        Stored (plane * size) size places place sums.old sums.new cell.now.sums }
    ensures ends { Stored (plane * 2) 2 places place ends.old ends.new cell.now.ends }
    ensures numbers { let size = length shape.now.thresholds in
        Stored (plane * size) size places place numbers.old numbers.new cell.now.numbers }
    ensures room_for_sums { sums_size shape.now.parameters ≤ length cell.now.sums }
    ensures room_for_numbers { length shape.now.thresholds ≤ length cell.now.numbers }
{
    let size = 8 + 4 * shape.parameters() as usize;
    put_sums(sums, plane * size, size, places, place, &cell.sums);
    put_ends(
        ends,
        plane * EXTREMA_NUMBERS,
        EXTREMA_NUMBERS,
        places,
        place,
        &cell.ends,
    );
    let size = shape.thresholds() as usize;
    put_numbers(numbers, plane * size, size, places, place, &cell.numbers);
}

// Reads the cells of a plane of so many rows.
#[tactic(auto, unfolding(mls_ckpt::specs::CellParts::plane_at))]
fn take_plane(
    sums: &mut [u64],
    ends: &mut [u16],
    numbers: &mut [u32],
    shape: &Shape,
    plane: usize,
    places: usize,
    n: u32,
    from: &mut Take<'_>,
) -> Result<(), RecoverFault>
    requires few { n ≤ 65535 }
    requires plane_in { plane < planes shape.now }
    requires sums_long { length sums.old ≡ planes shape.now * sums_size shape.now.parameters * places }
    requires ends_long { length ends.old ≡ planes shape.now * 2 * places }
    requires numbers_long { length numbers.old ≡ planes shape.now * length shape.now.thresholds * places }
    ensures exact { (rank : ℕ) → width (block shape.now rank) ≡ places →
        ReadsThese (packed_plane shape.now places sums.new ends.new numbers.new n plane places)
        (plane_at shape.now rank n) from.old from.new result }
    ensures within { OnOk result ((place : ℕ) → place < places →
        PackedWithin shape.now places sums.new ends.new numbers.new n plane place) }
    ensures others { (other place : ℕ) → other < plane → place < places →
        SameCell shape.now places sums.old ends.old numbers.old sums.new ends.new numbers.new other place }
{
    for place in 0..places {
        let cell = take_cell(from, shape, n)?;
        store(sums, ends, numbers, shape, plane, places, place, &cell);
    }
    Ok(())
}

/// Reads the cells of all planes, each of so many rows, into columns.
#[tactic(auto, unfolding(mls_ckpt::specs::CellParts::cells_at))]
pub(crate) fn take_planes(
    sums: &mut [u64],
    ends: &mut [u16],
    numbers: &mut [u32],
    shape: &Shape,
    counts: &[u32],
    places: usize,
    from: &mut Take<'_>,
) -> Result<(), RecoverFault>
    requires few { (plane : ℕ) → slice_index counts.now plane ≤ 65535 }
    requires each { length counts.now ≡ planes shape.now }
    requires sums_long { length sums.old ≡ planes shape.now * sums_size shape.now.parameters * places }
    requires ends_long { length ends.old ≡ planes shape.now * 2 * places }
    requires numbers_long { length numbers.old ≡ planes shape.now * length shape.now.thresholds * places }
    ensures exact { let s = shape.now in
        (rank : ℕ) → width (block s rank) ≡ places →
        ReadsThese (packed_cells s places sums.new ends.new numbers.new counts.now (planes s))
        (cells_at s rank counts.now) from.old from.new result }
    ensures within { OnOk result ((plane place : ℕ) → plane < planes shape.now → place < places →
        PackedWithin shape.now places sums.new ends.new numbers.new (slice_index counts.now plane) plane place) }
{
    for plane in 0..counts.len() {
        take_plane(
            sums,
            ends,
            numbers,
            shape,
            plane,
            places,
            counts[plane],
            from,
        )?;
    }
    Ok(())
}
