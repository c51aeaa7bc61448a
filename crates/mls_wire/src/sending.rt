//! Writing a whole text to a link.

ghost use Rattle.std.specs.Prelude.{◌≡◌, ◌+◌, ◌<◌, ◌≤◌, length, OnOk, OnErr};
ghost use Rattle.mls_base.specs.Told.{Rose, StaysSound};
ghost use Rattle.mls_wire.specs.Links.{SentFront, after_write};

use crate::outside::Link;
use mls_base::faults::Failed;

/// Writes all bytes. After `Failed` a front of them went out.
pub fn send_all<L: Link>(link: &mut L, bytes: &[u8]) -> Result<(), Failed>
    ensures written { OnOk result (L.told link.new ≡ after_write bytes.now (L.told link.old)) }
    ensures faultless { OnOk result (L.faults link.new ≡ L.faults link.old) }
    ensures sound { StaysSound (L.sound link.old) (L.sound link.new) }
    ensures sure { OnOk result (L.sure link.old ≤ L.sure link.new + length bytes.now) }
    ensures unsure { OnErr result (L.sure link.old < length bytes.now) }
    ensures front { OnErr result (SentFront (L.told link.old) (L.told link.new) bytes.now) }
    ensures rose { OnErr result (Rose (L.faults link.old) (L.faults link.new)) }
{
    let mut rest = bytes;
    while !rest.is_empty() {
        let n = link.write(rest)?;
        rest = rest.split_at(n).1;
    }
    Ok(())
}
