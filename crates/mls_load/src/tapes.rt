//! The reading of the tape of a name.

ghost use Rattle.std.specs.Prelude.{◌≡◌, ◌≤◌, true, IfOk, IfErr, vec_len};
ghost use Rattle.mls_tape.specs.Tapes.{longest_tape};
ghost use Rattle.mls_load.specs.Refusals.{Agrees, IsOfContent, Loads, seen};
ghost use Rattle.mls_load.specs.Tapes.{content_lanes, right_lanes};

use crate::loading::load;
use crate::refusal::Refusal;
use mls_base::outside::Files;
use mls_result::FileRole;
use mls_study::Study;
use mls_tape::tape::LONGEST_TAPE;
use mls_tape::{Tape, TapeFault};
use std::alloc::Global;

/// The tape in these bytes.
fn tape_in(alloc: Global, study: &Study, bytes: Vec<u8>) -> Result<Tape, Refusal>
    requires { vec_len bytes ≤ longest_tape }
    ensures right { Agrees true (λ t. t.lanes) result (content_lanes study.now bytes.items) }
    ensures ranks { IfOk result (λ t. t.ranks ≡ study.now.sizes.ranks) }
    ensures content { IfErr result IsOfContent }
{
    let shape = study.shape();
    match Tape::read(alloc, shape.ranks(), shape.signed(), bytes) {
        Ok(tape) => return Ok(tape),
        Err(TapeFault::Bad { at, why }) => return Err(Refusal::Tape { at, why }),
        Err(TapeFault::Memory) => return Err(Refusal::Memory),
    }
}

/// The tape of a name, for the study's ranks and samples.
pub fn load_tape<F: Files>(
    alloc: Global,
    files: &mut F,
    study: &Study,
    name: &str,
) -> Result<Tape, Refusal>
    ensures loads { Loads (λ t. t.lanes) (right_lanes study.now name.now)
        (seen F.held F.sound F.load_faults F.save_faults files.old)
        (seen F.held F.sound F.load_faults F.save_faults files.new) result }
    ensures ranks { IfOk result (λ t. t.ranks ≡ study.now.sizes.ranks) }
{
    let bytes = load(alloc, files, name, LONGEST_TAPE, FileRole::Tape)?;
    tape_in(alloc, study, bytes)
}
