//! The sums of a new rank's cells, as they stand in the old ranks' lists.

ghost use Rattle.std.specs.Prelude.{◌≡◌, ℕ, ◌<◌, ◌≤◌, ◌+◌, ◌*◌, ◌++◌, [], length, take, drop, get_or, OnOk};
ghost use Rattle.mls_model.specs.Studies.{planes};
ghost use Rattle.mls_resume.specs.Reads.{lists_of, AreLong};
ghost use Rattle.mls_resume.specs.Recut.{cell_size, cell_bytes, recut_plane, recut_part};

use mls_base::faults::NoMemory;
use mls_base::shape::Shape;
use mls_ckpt::Put;

/// How many bytes the sums of a cell have.
fn cell_size(shape: &Shape) -> usize
    ensures value { result ≡ cell_size shape.now }
    ensures few { result ≤ 628 }
{
    84 + 4 * shape.thresholds() as usize + 32 * shape.parameters() as usize
}

/// Appends the bytes of a place, of so many bytes each.
fn put_place(part: &[u8], at: usize, size: usize, out: &mut Put) -> Result<(), NoMemory>
    requires { at + size ≤ length part.now }
    ensures { OnOk result (out.new ≡ out.old ++ take size (drop at part.now)) }
{
    let rest = part.split_at(at).1;
    out.extend_from_slice(rest.split_at(size).0)
}

/// Where the bytes of a place begin.
fn place_at(plane: u32, places: u32, place: u32, size: usize) -> usize
    requires planes { plane ≤ 1048576 }
    requires places { places ≤ 1048576 }
    requires place { place ≤ 1048576 }
    requires size { size ≤ 628 }
    ensures { result ≡ (plane * places + place) * size }
{
    (plane as usize * places as usize + place as usize) * size
}

/// Appends the bytes of a cell's sums from the list of its old rank.
fn put_cell(
    old: &Shape,
    parts: &[Vec<u8>],
    plane: u32,
    cell: u32,
    out: &mut Put,
) -> Result<(), NoMemory>
    requires plane_in { plane < planes old.now }
    requires cell_in { cell < old.now.cells }
    requires parts { AreLong old.now (lists_of parts.now) }
    ensures { OnOk result (out.new ≡ out.old ++ cell_bytes old.now (lists_of parts.now) plane cell) }
{
    let size = cell_size(old);
    let rank = old.rank_of(cell);
    let block = old.block(rank);
    let at = place_at(plane, block.end - block.first, cell - block.first, size);
    let part = &parts[rank as usize];
    put_place(part.as_slice(), at, size, out)
}

/// Appends the sums of a new rank's cells of a plane.
#[tactic(auto, unfolding(crate::specs::Recut::recut_plane))]
fn put_plane(
    shape: &Shape,
    old: &Shape,
    parts: &[Vec<u8>],
    rank: u32,
    plane: u32,
    out: &mut Put,
) -> Result<(), NoMemory>
    requires rank_in { rank < shape.now.ranks }
    requires plane_in { plane < planes old.now }
    requires cells { shape.now.cells ≡ old.now.cells }
    requires parts { AreLong old.now (lists_of parts.now) }
    ensures { OnOk result (out.new ≡ out.old ++ recut_plane shape.now old.now (lists_of parts.now) rank plane) }
{
    let block = shape.block(rank);
    for place in 0..block.end - block.first {
        put_cell(old, parts, plane, block.first + place, out)?;
    }
    Ok(())
}

/// Appends the sums of a new rank's cells, plane by plane.
#[tactic(auto, unfolding(crate::specs::Recut::recut_part))]
pub(crate) fn put_part(
    shape: &Shape,
    old: &Shape,
    parts: &[Vec<u8>],
    rank: u32,
    out: &mut Put,
) -> Result<(), NoMemory>
    requires rank_in { rank < shape.now.ranks }
    requires planes { planes shape.now ≡ planes old.now }
    requires cells { shape.now.cells ≡ old.now.cells }
    requires parts { AreLong old.now (lists_of parts.now) }
    ensures { OnOk result (out.new ≡ out.old ++ recut_part shape.now old.now (lists_of parts.now) rank) }
{
    for plane in 0..shape.planes() {
        put_plane(shape, old, parts, rank, plane, out)?;
    }
    Ok(())
}
