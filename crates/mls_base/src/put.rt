//! Writing a whole text to a sink.

ghost use Rattle.std.specs.Prelude.{◌≡◌, ◌+◌, ◌<◌, ◌≤◌, length, OnOk, OnErr};
ghost use Rattle.mls_base.specs.Told.{appended, Rose, WroteFront};

use crate::faults::Failed;
use crate::outside::Sink;

/// Writes all bytes. After `Failed` a front of them went out.
pub fn put_all<O: Sink>(out: &mut O, bytes: &[u8]) -> Result<(), Failed>
    ensures written { OnOk result (O.told out.new ≡ appended (O.told out.old) bytes.now) }
    ensures faultless { OnOk result (O.faults out.new ≡ O.faults out.old) }
    ensures sure { OnOk result (O.sure out.old ≤ O.sure out.new + length bytes.now) }
    ensures unsure { OnErr result (O.sure out.old < length bytes.now) }
    ensures front { OnErr result (WroteFront (O.told out.old) (O.told out.new) bytes.now) }
    ensures rose { OnErr result (Rose (O.faults out.old) (O.faults out.new)) }
{
    let mut rest = bytes;
    while !rest.is_empty() {
        let n = out.write(rest)?;
        rest = rest.split_at(n).1;
    }
    Ok(())
}
