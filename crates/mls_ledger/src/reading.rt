//! The bytes of marks taken from a checkpoint, and how many keys they mark.

ghost use Rattle.std.specs.Prelude.{◌≡◌, ◌*◌, ◌/◌, ◌≤◌, ◌<◌, [], ◌∷◌, ◌++◌, length, map, IfOk};
ghost use Rattle.std.specs.Int.{w8};
ghost use Rattle.mls_model.specs.Studies.{planes};
ghost use Rattle.mls_ckpt.specs.Checkpoints.{marks_row_at, marks_at};
ghost use Rattle.mls_ckpt.specs.Places.{cursor_of};
ghost use Rattle.mls_ckpt.specs.Reading.{AreBytes, number_at};
ghost use Rattle.mls_ckpt.specs.Recovering.{Gives, RecoversNumber, Continues};
ghost use Rattle.mls_ckpt.specs.States.{row_len, most_of_byte, is_set, marked};
ghost use Rattle.mls_ledger.specs.MarkRows.{rows_in};

use mls_base::faults::NoMemory;
use mls_base::shape::Shape;
use mls_ckpt::{RecoverFault, Take};
use std::alloc::Global;

/// Each is a byte.
pub(crate) fn are_bytes(bytes: &[u8])
    ensures { AreBytes bytes.now }
{
    let _size = bytes.len();
}

// The greatest that a byte of a plane's marks can be: no bit stands from the number of groups on.
fn most_of(groups: u32, byte: u32) -> u8
    requires groups { groups ≤ 65535 }
    requires byte { byte ≤ 65535 }
    ensures { result ≡ most_of_byte groups byte }
{
    if 8 * (byte + 1) <= groups {
        255
    } else {
        (1 << (groups % 8)) - 1
    }
}

// The next byte.
fn byte_of(from: &mut Take<'_>, most: u8) -> Result<u8, RecoverFault>
    ensures { RecoversNumber (cursor_of from.old) (cursor_of from.new) result (number_at w8 most (cursor_of from.old)) }
{
    Ok(from.u8(most)?)
}

// Puts a byte behind others.
fn push(bytes: &mut Vec<u8>, byte: u8) -> Result<(), NoMemory>
    ensures { IfOk result (λ _. bytes.new.items ≡ bytes.old.items ++ byte ∷ []) }
{
    bytes.push(byte)?;
    Ok(())
}

// Takes a plane's bytes behind those of the planes before it.
#[tactic(auto, unfolding(mls_ckpt::specs::Checkpoints::marks_row_at))]
fn take_row(shape: &Shape, from: &mut Take<'_>, bytes: &mut Vec<u8>) -> Result<(), RecoverFault>
    ensures { Continues bytes.old.items bytes.new.items (cursor_of from.new) result
        (marks_row_at shape.now (cursor_of from.old)) }
{
    shape.valid();
    let groups = shape.groups();
    let size = (groups + 7) / 8;
    for place in 0..size {
        let byte = byte_of(from, most_of(groups, place))?;
        push(bytes, byte)?;
    }
    Ok(())
}

/// Takes the bytes of each plane, in rising plane. A fault may leave the place where it is.
#[tactic(auto, unfolding(mls_ckpt::specs::Checkpoints::marks_at))]
pub(crate) fn take_rows(
    alloc: Global,
    shape: &Shape,
    from: &mut Take<'_>,
) -> Result<Vec<u8>, RecoverFault>
    ensures read { Gives (λ bytes. rows_in (row_len shape.now.groups) (planes shape.now) bytes.items)
        (cursor_of from.new) result (marks_at shape.now (cursor_of from.old)) }
    ensures size { IfOk result (λ bytes. length bytes.items ≡ planes shape.now * row_len shape.now.groups) }
{
    shape.valid();
    let mut bytes = Vec::new(alloc);
    bytes.reserve_exact(shape.planes() as usize * ((shape.groups() as usize + 7) / 8))?;
    for _plane in 0..shape.planes() {
        take_row(shape, from, &mut bytes)?;
    }
    Ok(bytes)
}

// Whether a plane's bytes mark a group.
fn marks(row: &[u8], group: u32) -> bool
    requires { group / 8 < length row.now }
    ensures { result ≡ is_set row.now group }
{
    (row[group as usize / 8] >> (group % 8)) & 1 == 1
}

// How many groups a plane's bytes mark.
#[tactic(auto, unfolding(mls_ckpt::specs::States::marked))]
fn count_row(groups: u32, row: &[u8]) -> u32
    requires { length row.now ≡ row_len groups }
    ensures { result ≡ marked groups row.now }
{
    let mut count = 0;
    for group in 0..groups {
        if marks(row, group) {
            count += 1;
        }
    }
    count
}

/// How many groups the bytes of each plane mark.
pub(crate) fn counts_of(
    alloc: Global,
    groups: u32,
    planes: u32,
    bytes: &[u8],
) -> Result<Vec<u32>, NoMemory>
    requires { length bytes.now ≡ planes * row_len groups }
    ensures { IfOk result (λ counts. counts.items ≡ map (marked groups) (rows_in (row_len groups) planes bytes.now)) }
{
    let size = (groups as usize + 7) / 8;
    let mut counts = Vec::with_capacity(alloc, planes as usize)?;
    let mut rest = bytes;
    for _plane in 0..planes {
        let (row, others) = rest.split_at(size);
        counts.push(count_row(groups, row))?;
        rest = others;
    }
    Ok(counts)
}
