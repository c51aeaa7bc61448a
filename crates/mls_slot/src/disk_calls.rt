//! The inner steps of a keeper on its disk, of at most three calls each.

ghost use Rattle.std.specs.Prelude.{◌≡◌, ◌⊎◌, ℕ, None, Some, ◌+◌, ◌<◌, ◌≤◌, List, [], ◌∷◌, take, length, IsTrue, IfOk, OnOk, OnErr};
ghost use Rattle.std.specs.Int.{w64, to_be_bytes};
ghost use Rattle.mls_base.specs.Told.{Rose};
ghost use Rattle.mls_slot.specs.Disks.{View, IsLeft, IsAtRest, Torn, over};
ghost use Rattle.mls_slot.specs.Runs.{LeavesOnly, Changed, Settled, ReadsHead, Begins, Shuts, Knows, Stores};
ghost use Rattle.mls_slot.specs.Slots.{head_length, value};
ghost use Rattle.mls_slot.specs.Known.{IsHead, IsTarget};

use crate::disk::Disk;
use crate::heads::{HEAD_LENGTH, Head, Heads, Slot, head_of};
use mls_base::faults::Failed;

/// Writes an area's gate and syncs.
pub fn write_gate<D: Disk>(disk: &mut D, area: u32, gate: u8) -> Result<(), Failed>
    requires { area < 2 }
    ensures moments { IsTrue (D.tells disk.new) → IsAtRest (D.view disk.old) → LeavesOnly (D.view disk.old) (D.view disk.new) (Changed area (Torn 0 1 ((D.view disk.old).seen area)) (D.view disk.old).seen) }
    ensures settled { OnOk result (IsTrue (D.tells disk.old) → IsAtRest (D.view disk.old) → Settled area (over ((D.view disk.old).seen area) 0 (gate ∷ [])) (D.view disk.old) (D.view disk.new)) }
    ensures tells { OnOk result (D.tells disk.new ≡ D.tells disk.old) }
    ensures ceased { OnErr result (IsTrue (D.tells disk.new) → IsTrue (D.tells disk.old)) }
    ensures faultless { OnOk result (D.faults disk.new ≡ D.faults disk.old) }
    ensures rose { OnErr result (Rose (D.faults disk.old) (D.faults disk.new)) }
{
    disk.write_at(area, 0, &[gate])?;
    disk.sync(area)?;
    Ok(())
}

/// Writes number, length and payload of an area whose gate stands, and syncs.
pub fn write_slot<D: Disk>(
    disk: &mut D,
    area: u32,
    number: u8,
    payload: &[u8],
) -> Result<(), Failed>
    requires area { area < 2 }
    requires gate { IsTrue (D.tells disk.old) → 1 ≤ length ((D.view disk.old).seen area) }
    ensures moments { IsTrue (D.tells disk.new) → IsAtRest (D.view disk.old) → LeavesOnly (D.view disk.old) (D.view disk.new) (Changed area (λ c. take 1 c ≡ take 1 ((D.view disk.old).seen area)) (D.view disk.old).seen) }
    ensures settled { OnOk result (IsTrue (D.tells disk.old) → IsAtRest (D.view disk.old) → Settled area (over (over ((D.view disk.old).seen area) 1 (number ∷ to_be_bytes w64 (length payload.now))) head_length payload.now) (D.view disk.old) (D.view disk.new)) }
    ensures tells { OnOk result (D.tells disk.new ≡ D.tells disk.old) }
    ensures ceased { OnErr result (IsTrue (D.tells disk.new) → IsTrue (D.tells disk.old)) }
    ensures faultless { OnOk result (D.faults disk.new ≡ D.faults disk.old) }
    ensures rose { OnErr result (Rose (D.faults disk.old) (D.faults disk.new)) }
{
    disk.write_at(area, 1, &front(number, payload.len() as u64))?;
    disk.write_at(area, HEAD_LENGTH as u64, payload)?;
    disk.sync(area)?;
    Ok(())
}

/// A slot's number and length as bytes.
fn front(number: u8, length: u64) -> [u8; 9]
    ensures { result ≡ number ∷ to_be_bytes w64 length }
{
    let [a, b, c, d, e, f, g, h] = length.to_be_bytes();
    [number, a, b, c, d, e, f, g, h]
}

/// Syncs an area and reads its head.
fn read_head<D: Disk>(disk: &mut D, area: u32) -> Result<Head, Failed>
    requires { area < 2 }
    ensures moments { IsTrue (D.tells disk.new) → LeavesOnly (D.view disk.old) (D.view disk.new) (IsLeft (D.view disk.old)) }
    ensures read { IfOk result (λ head. IsTrue (D.tells disk.old) → ReadsHead area head (D.view disk.old) (D.view disk.new)) }
    ensures tells { OnOk result (D.tells disk.new ≡ D.tells disk.old) }
    ensures ceased { OnErr result (IsTrue (D.tells disk.new) → IsTrue (D.tells disk.old)) }
    ensures faultless { OnOk result (D.faults disk.new ≡ D.faults disk.old) }
    ensures rose { OnErr result (Rose (D.faults disk.old) (D.faults disk.new)) }
{
    disk.sync(area)?; // What is looked at has to be on the disk.
    let len = disk.len(area)?;
    let mut front = [0u8; HEAD_LENGTH];
    let n = disk.read(area, 0, &mut front)?;
    Ok(head_of(len, front.split_at(n).0))
}

/// Syncs both areas and reads both heads, one area after the other.
pub fn begin<D: Disk>(disk: &mut D) -> Result<Heads, Failed>
    ensures moments { IsTrue (D.tells disk.new) → LeavesOnly (D.view disk.old) (D.view disk.new) (IsLeft (D.view disk.old)) }
    ensures begun { IfOk result (λ heads. IsTrue (D.tells disk.old) → Begins heads (D.view disk.old) (D.view disk.new)) }
    ensures tells { OnOk result (D.tells disk.new ≡ D.tells disk.old) }
    ensures ceased { OnErr result (IsTrue (D.tells disk.new) → IsTrue (D.tells disk.old)) }
    ensures faultless { OnOk result (D.faults disk.new ≡ D.faults disk.old) }
    ensures rose { OnErr result (Rose (D.faults disk.old) (D.faults disk.new)) }
{
    let zero = read_head(disk, 0)?;
    let one = read_head(disk, 1)?;
    Ok(Heads { zero, one })
}

/// Shuts an area's gate, unless it is shut already.
fn shut_gate<D: Disk>(disk: &mut D, area: u32, head: Head) -> Result<(), Failed>
    requires area { area < 2 }
    requires known { IsTrue (D.tells disk.old) → IsAtRest (D.view disk.old) × IsHead ((D.view disk.old).seen area) head }
    ensures moments { IsTrue (D.tells disk.new) → (n : ℕ) → IsTarget (D.view disk.old).seen area n → LeavesOnly (D.view disk.old) (D.view disk.new) (λ image. value image ≡ value (D.view disk.old).seen) }
    ensures shuts { OnOk result (IsTrue (D.tells disk.old) → Shuts area (D.view disk.old) (D.view disk.new)) }
    ensures tells { OnOk result (D.tells disk.new ≡ D.tells disk.old) }
    ensures ceased { OnErr result (IsTrue (D.tells disk.new) → IsTrue (D.tells disk.old)) }
    ensures faultless { OnOk result (D.faults disk.new ≡ D.faults disk.old) }
    ensures rose { OnErr result (Rose (D.faults disk.old) (D.faults disk.new)) }
{
    if head.shut {
        return Ok(());
    }
    write_gate(disk, area, 0)?;
    Ok(())
}

/// Puts the payload into the area that isn't the current one, and tells what is then known of the areas.
pub fn store<D: Disk>(disk: &mut D, heads: Heads, payload: &[u8]) -> Result<Heads, Failed>
    requires known { IsTrue (D.tells disk.old) → Knows heads (D.view disk.old) }
    ensures moments { IsTrue (D.tells disk.new) → LeavesOnly (D.view disk.old) (D.view disk.new) (λ image. (value image ≡ value (D.view disk.old).seen) ⊎ (value image ≡ Some payload.now)) }
    ensures first { OnOk result (IsTrue (D.tells disk.old) → value (D.view disk.old).seen ≡ None → (D.view disk.new).seen 1 ≡ (D.view disk.old).seen 1) }
    ensures stores { IfOk result (λ known. IsTrue (D.tells disk.old) → Stores payload.now known (D.view disk.new)) }
    ensures tells { OnOk result (D.tells disk.new ≡ D.tells disk.old) }
    ensures ceased { OnErr result (IsTrue (D.tells disk.new) → IsTrue (D.tells disk.old)) }
    ensures faultless { OnOk result (D.faults disk.new ≡ D.faults disk.old) }
    ensures rose { OnErr result (Rose (D.faults disk.old) (D.faults disk.new)) }
{
    let (area, number) = heads.target();
    shut_gate(disk, area, heads.head(area))?;
    write_slot(disk, area, number, payload)?;
    write_gate(disk, area, 1)?;
    let slot = Slot {
        number,
        length: payload.len() as u64,
    };
    let head = Head {
        shut: false,
        slot: Some(slot),
    };
    Ok(heads.with(area, head))
}
