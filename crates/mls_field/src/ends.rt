//! The least and greatest samples of cells with no rows.

ghost use Rattle.std.specs.Prelude.{◌≡◌, ℕ, ◌+◌, ◌*◌, ◌^◌, ◌<◌, ◌≤◌, length, slice_index};

use mls_power::ends::NO_EXTREMA;

// Puts a number at so many places from `at` on.
fn fill_column(ends: &mut [u16], at: usize, places: usize, end: u16)
    requires { at + places ≤ length ends.old }
    ensures there { (k : ℕ) → k < places → slice_index ends.new (at + k) ≡ end }
    ensures before { (i : ℕ) → i < at → slice_index ends.new i ≡ slice_index ends.old i }
{
    for k in 0..places {
        ends[at + k] = end;
    }
}

/// Puts the numbers of no samples into both columns of each plane.
pub(crate) fn clear_ends(ends: &mut [u16], planes: usize, places: usize)
    requires few { planes * 2 < 2 ^ 62 }
    requires size { planes * 2 * places ≤ length ends.old }
    ensures least { (plane place : ℕ) → plane < planes → place < places →
        slice_index ends.new ((plane * 2) * places + place) ≡ 65535 }
    ensures greatest { (plane place : ℕ) → plane < planes → place < places →
        slice_index ends.new ((plane * 2 + 1) * places + place) ≡ 0 }
{
    for plane in 0..planes {
        fill_column(ends, plane * 2 * places, places, NO_EXTREMA[0]);
        fill_column(ends, (plane * 2 + 1) * places, places, NO_EXTREMA[1]);
    }
}
