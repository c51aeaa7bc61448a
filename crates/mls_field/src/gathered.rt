//! Rows that wait to be added, and how they are put there.

ghost use Rattle.std.specs.Prelude.{◌≡◌, ℕ, ◌+◌, ◌*◌, ◌^◌, ◌<◌, ◌≤◌, length, slice_index};
ghost use Rattle.mls_model.specs.Samples.{shifted};

use mls_base::rows::Rows;

/// The shifted value of a sample.
fn shifted_value(signed: bool, sample: u16) -> u16
    ensures { result ≡ shifted signed sample }
{
    let shift = if signed { 32768 } else { 0 };
    sample.wrapping_add(shift)
}

// How many places of a row are read at a time, into an array of their own. What is written into a list could change the
// rows, for all that the compiler knows, so that they are looked up anew for each place; what is written into the array
// can't, and the loop is vectorized.
const PIECE: usize = 256;

// From how many places on a row is read piece by piece. In shorter ones the array costs more than it spares.
const LONG: u32 = 32;

// Reads the shifted values of so many places of a row, from `from` on, into the front of an array.
fn read_piece<R: Rows>(
    piece: &mut [u16; PIECE],
    from: u32,
    count: u32,
    signed: bool,
    rows: &R,
    row: u32,
)
    requires row { row < R.row_count rows.now }
    requires places { from + count ≤ R.place_count rows.now }
    requires fits { from + count < 2 ^ 32 }
    requires few { count ≤ 256 }
    ensures small { (k : ℕ) → k < count → slice_index piece.new k ≤ 65535 }
    ensures values { (k : ℕ) → k < count →
        slice_index piece.new k ≡ shifted signed (R.sample rows.now row (from + k)) }
{
    for place in 0..count {
        piece[place as usize] = shifted_value(signed, rows.at(row, from + place));
    }
}

// Copies so many numbers of the array into a list, from `at` on.
fn put_piece(samples: &mut [u16], at: usize, piece: &[u16; PIECE], count: usize)
    requires few { count ≤ 256 }
    requires size { at + count ≤ length samples.old }
    ensures there { (k : ℕ) → k < count → slice_index samples.new (at + k) ≡ slice_index piece.now k }
    ensures before { (j : ℕ) → j < at → slice_index samples.new j ≡ slice_index samples.old j }
    ensures behind { (j : ℕ) → at + count ≤ j → slice_index samples.new j ≡ slice_index samples.old j }
{
    for k in 0..count {
        samples[at + k] = piece[k];
    }
}

// Puts the shifted values of a row of a block into a list from `at` on, piece by piece.
fn gather_pieces<R: Rows>(samples: &mut [u16], at: usize, signed: bool, rows: &R, row: u32)
    requires row { row < R.row_count rows.now }
    requires size { at + R.place_count rows.now ≤ length samples.old }
    ensures small { ((i : ℕ) → slice_index samples.old i ≤ 65535) → (i : ℕ) → slice_index samples.new i ≤ 65535 }
    ensures values { (i : ℕ) → i < R.place_count rows.now →
        slice_index samples.new (at + i) ≡ shifted signed (R.sample rows.now row i) }
    ensures before { (j : ℕ) → j < at → slice_index samples.new j ≡ slice_index samples.old j }
    ensures behind { (j : ℕ) → at + R.place_count rows.now ≤ j → slice_index samples.new j ≡ slice_index samples.old j }
{
    let places = rows.cells();
    let mut piece = [0; PIECE];
    let mut from = 0;
    while from < places {
        let count = (PIECE as u32).min(places - from);
        read_piece(&mut piece, from, count, signed, rows, row);
        put_piece(samples, at + from as usize, &piece, count as usize);
        from += count;
    }
}

// Puts them there place by place.
fn gather_places<R: Rows>(samples: &mut [u16], at: usize, signed: bool, rows: &R, row: u32)
    requires row { row < R.row_count rows.now }
    requires size { at + R.place_count rows.now ≤ length samples.old }
    ensures small { ((i : ℕ) → slice_index samples.old i ≤ 65535) → (i : ℕ) → slice_index samples.new i ≤ 65535 }
    ensures values { (i : ℕ) → i < R.place_count rows.now →
        slice_index samples.new (at + i) ≡ shifted signed (R.sample rows.now row i) }
    ensures before { (j : ℕ) → j < at → slice_index samples.new j ≡ slice_index samples.old j }
    ensures behind { (j : ℕ) → at + R.place_count rows.now ≤ j → slice_index samples.new j ≡ slice_index samples.old j }
{
    for place in 0..rows.cells() {
        samples[at + place as usize] = shifted_value(signed, rows.at(row, place));
    }
}

// Puts the shifted values of a row of a block into a list from `at` on.
fn gather_row<R: Rows>(samples: &mut [u16], at: usize, signed: bool, rows: &R, row: u32)
    requires row { row < R.row_count rows.now }
    requires size { at + R.place_count rows.now ≤ length samples.old }
    ensures small { ((i : ℕ) → slice_index samples.old i ≤ 65535) → (i : ℕ) → slice_index samples.new i ≤ 65535 }
    ensures values { (i : ℕ) → i < R.place_count rows.now →
        slice_index samples.new (at + i) ≡ shifted signed (R.sample rows.now row i) }
    ensures before { (j : ℕ) → j < at → slice_index samples.new j ≡ slice_index samples.old j }
    ensures behind { (j : ℕ) → at + R.place_count rows.now ≤ j → slice_index samples.new j ≡ slice_index samples.old j }
{
    if rows.cells() < LONG {
        gather_places(samples, at, signed, rows, row);
    } else {
        gather_pieces(samples, at, signed, rows, row);
    }
}

/// Puts the shifted values of a block into a list from `start` on, row after row.
pub(crate) fn gather<R: Rows>(samples: &mut [u16], start: usize, signed: bool, rows: &R)
    requires size { start + R.row_count rows.now * R.place_count rows.now ≤ length samples.old }
    ensures small { ((i : ℕ) → slice_index samples.old i ≤ 65535) → (i : ℕ) → slice_index samples.new i ≤ 65535 }
    ensures values { let places = R.place_count rows.now in
        (r i : ℕ) → r < R.row_count rows.now → i < places →
        slice_index samples.new (start + r * places + i) ≡ shifted signed (R.sample rows.now r i) }
    ensures before { (j : ℕ) → j < start → slice_index samples.new j ≡ slice_index samples.old j }
    ensures behind { let end = start + R.row_count rows.now * R.place_count rows.now in
        (j : ℕ) → end ≤ j → slice_index samples.new j ≡ slice_index samples.old j }
{
    let places = rows.cells() as usize;
    for row in 0..rows.rows() {
        gather_row(samples, start + row as usize * places, signed, rows, row);
    }
}
