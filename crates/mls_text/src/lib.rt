//! Texts of several pieces, written to a sink one after another without memory, and numbers read from texts.
//!
//! A call that writes a text has one clause, `WritesTo`: after `Ok` the text was appended and no count rose;
//! after `Failed` a front of it went out, the sink's count of faults rose, and the sink took fewer bytes for sure
//! than the text has.
#![tactic(auto)]

ghost use Rattle.mls_text.specs.Writing.{WritesTo};

mod decimal;
mod line;
mod reading;

pub use decimal::{canonical_number, small_canonical_number};
pub use line::Line;
use mls_base::faults::Failed;
use mls_base::outside::Sink;
use mls_base::put::put_all;
pub use reading::number_before;

/// Writes the bytes. After `Failed` a front of them went out.
pub fn put_bytes<O: Sink>(out: &mut O, bytes: &[u8]) -> Result<(), Failed>
    ensures { WritesTo O.told O.faults O.sure out.old out.new result bytes.now }
{
    put_all(out, bytes)
}
