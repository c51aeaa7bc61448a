//! The numbers of a cell as a checkpoint spells them, written one after the other into an array from a place on.

ghost use Rattle.std.specs.Prelude.{◌≡◌, ℕ, ◌+◌, ◌*◌, ◌<◌, ◌≤◌, [], take, length};
ghost use Rattle.std.specs.Int.{w16, w32, w64, w128};
ghost use Rattle.mls_ckpt.specs.CellParts.{cell_text};
ghost use Rattle.mls_ckpt.specs.Reading.{text, texts};
ghost use Rattle.mls_field.specs.ColumnSums.{sums_size};
ghost use Rattle.mls_field.specs.Copied.{copied};
ghost use Rattle.mls_field.specs.Kinds.{SumsWithin};
ghost use Rattle.mls_field.specs.OneCell.{HasRoomFor};
ghost use Rattle.mls_field.specs.PackedCells.{kept_cell};
ghost use Rattle.mls_field.specs.PutBytes.{Grown, powers_of_sums, ends_text};

use crate::cells::MOST_SUMS;
use crate::copied::{BLOCK, BLOCK_ENDS, BLOCK_NUMBERS, BLOCK_SUMS};
use byteorder::{BigEndian, ByteOrder};
use mls_base::shape::Shape;
use mls_power::exceed::MOST_THRESHOLDS;

/// Room for what a checkpoint has behind its sums, in bytes, taken in one go with that of the sums: else the list would
/// double for its last bytes.
pub(crate) const ROOM_BEHIND: usize = 4096;

/// How many bytes a cell has at most.
pub(crate) const CELL_BYTES: usize = 52 + 4 * MOST_THRESHOLDS + 8 * (MOST_SUMS - 4);

// Writes a number of 2 bytes at a place.
fn put_u16(bytes: &mut [u8], at: usize, n: u16)
    requires { at + 2 ≤ length bytes.old }
    ensures { Grown (take at bytes.old) (take (at + 2) bytes.new) (text w16 n) }
{
    BigEndian::write_u16(&mut bytes[at..], n);
}

// Writes a number of 4 bytes.
fn put_u32(bytes: &mut [u8], at: usize, n: u32)
    requires { at + 4 ≤ length bytes.old }
    ensures { Grown (take at bytes.old) (take (at + 4) bytes.new) (text w32 n) }
{
    BigEndian::write_u32(&mut bytes[at..], n);
}

// Writes a number of 8 bytes.
fn put_u64(bytes: &mut [u8], at: usize, n: u64)
    requires { at + 8 ≤ length bytes.old }
    ensures { Grown (take at bytes.old) (take (at + 8) bytes.new) (text w64 n) }
{
    BigEndian::write_u64(&mut bytes[at..], n);
}

// Writes a number of 16 bytes.
fn put_u128(bytes: &mut [u8], at: usize, n: u128)
    requires { at + 16 ≤ length bytes.old }
    ensures { Grown (take at bytes.old) (take (at + 16) bytes.new) (text w128 n) }
{
    BigEndian::write_u128(&mut bytes[at..], n);
}

// Writes the power sums of a cell.
fn put_powers(bytes: &mut [u8], at: usize, sums: &[u64], place: usize, parameters: u32)
    requires bytes { at + 48 ≤ length bytes.old }
    requires few { parameters ≤ 16 }
    requires place { place < 64 }
    requires sums { 4608 ≤ length sums.now }
    requires range { HasRoomFor (SumsWithin parameters) 0 (copied (sums_size parameters) sums.now place) }
    ensures { Grown (take at bytes.old) (take (at + 48) bytes.new)
        (powers_of_sums parameters (copied (sums_size parameters) sums.now place)) }
{
    let first = 4 + 4 * parameters as usize;
    let cubes_a = sums[first * BLOCK + place];
    let cubes_b = sums[(first + 1) * BLOCK + place];
    let low = sums[(first + 2) * BLOCK + place];
    let high = sums[(first + 3) * BLOCK + place];
    put_u64(bytes, at, sums[place] + sums[BLOCK + place]);
    put_u64(
        bytes,
        at + 8,
        sums[2 * BLOCK + place] + sums[3 * BLOCK + place],
    );
    put_u128(bytes, at + 16, cubes_a as u128 + cubes_b as u128);
    put_u128(bytes, at + 32, low as u128 + 4294967296 * high as u128);
}

// Writes the least and the greatest sample of a cell.
fn put_ends(bytes: &mut [u8], at: usize, ends: &[u16], place: usize)
    requires bytes { at + 4 ≤ length bytes.old }
    requires place { place < 64 }
    requires ends { 128 ≤ length ends.now }
    ensures { Grown (take at bytes.old) (take (at + 4) bytes.new) (ends_text (copied 2 ends.now place)) }
{
    put_u16(bytes, at, ends[place]);
    put_u16(bytes, at + 2, ends[BLOCK + place]);
}

// Writes so many numbers above thresholds of a cell.
fn put_numbers(bytes: &mut [u8], at: usize, numbers: &[u32], place: usize, count: usize)
    requires bytes { at + 4 * count ≤ length bytes.old }
    requires place { place < 64 }
    requires numbers { count * 64 ≤ length numbers.now }
    ensures { Grown (take at bytes.old) (take (at + 4 * count) bytes.new)
        (texts (text w32) (copied count numbers.now place)) }
{
    for c in 0..count {
        put_u32(bytes, at + 4 * c, numbers[c * BLOCK + place]);
    }
}

// Writes so many sums of samples and products of a cell.
fn put_products(bytes: &mut [u8], at: usize, sums: &[u64], place: usize, count: usize)
    requires bytes { at + 8 * count ≤ length bytes.old }
    requires place { place < 64 }
    requires sums { count * 64 ≤ length sums.now }
    ensures { Grown (take at bytes.old) (take (at + 8 * count) bytes.new)
        (texts (text w64) (copied count sums.now place)) }
{
    for c in 0..count {
        put_u64(bytes, at + 8 * c, sums[c * BLOCK + place]);
    }
}

/// Writes the numbers of a cell into the front of an array, and tells how many bytes they are.
pub(crate) fn put_cell(
    bytes: &mut [u8; CELL_BYTES],
    shape: &Shape,
    sums: &[u64; BLOCK_SUMS],
    ends: &[u16; BLOCK_ENDS],
    numbers: &[u32; BLOCK_NUMBERS],
    place: usize,
) -> usize
    requires place { place < 64 }
    requires range { let p = shape.now.parameters in
        HasRoomFor (SumsWithin p) 0 (copied (sums_size p) sums.now place) }
    ensures size { result ≤ 628 }
    ensures text { let p = shape.now.parameters in
        (n : ℕ) → Grown [] (take result bytes.new) (cell_text (kept_cell p n (copied (sums_size p) sums.now place)
        (copied 2 ends.now place) (copied (length shape.now.thresholds) numbers.now place))) }
{
    let parameters = shape.parameters();
    let thresholds = shape.thresholds() as usize;
    let products = 4 + 4 * parameters as usize;
    let at = 52 + 4 * thresholds;
    put_powers(bytes, 0, sums, place, parameters);
    put_ends(bytes, 48, ends, place);
    put_numbers(bytes, 52, numbers, place, thresholds);
    put_products(bytes, at, sums, place, products);
    at + 8 * products
}
