//! The reading of the files that a command begins with, and its study.

ghost use Rattle.std.specs.Prelude.{◌≡◌, ◌≤◌, true, IfOk, IfErr, vec_len};
ghost use Rattle.mls_cli.specs.Inputs.{study_limit, limited, content_study, right_study};
ghost use Rattle.mls_export.specs.Files.{seen};
ghost use Rattle.mls_cli.specs.Refusals.{Agrees, IsOfContent, Loads};

use crate::refusal::{Refusal, study_refusal};
use mls_base::faults::LoadFault;
use mls_base::outside::Files;
use mls_result::FileRole;
use mls_study::{Study, read_study};
use std::alloc::Global;

/// The most bytes of a study.
const STUDY_LIMIT: u64 = 65536;

/// The bytes of a name, at most `max` of them.
pub(crate) fn load<F: Files>(
    alloc: Global,
    files: &mut F,
    name: &str,
    max: u64,
    file: FileRole,
) -> Result<Vec<u8>, Refusal>
    ensures loads { Loads (λ bytes. bytes.items) (λ held. limited file max (held name.now))
        (seen F.held F.sound F.load_faults F.save_faults files.old)
        (seen F.held F.sound F.load_faults F.save_faults files.new) result }
    ensures within { IfOk result (λ bytes. vec_len bytes ≤ max) }
{
    match files.load(alloc, name, max) {
        Ok(bytes) => return Ok(bytes),
        Err(LoadFault::Failed) => return Err(Refusal::ReadFault),
        Err(LoadFault::TooLong) => return Err(Refusal::TooLong { file }),
        Err(LoadFault::Memory) => return Err(Refusal::Memory),
    }
}

/// The study in these bytes.
fn study_in(alloc: Global, bytes: &[u8]) -> Result<Study, Refusal>
    ensures right { Agrees true (λ s. s) result (content_study bytes.now) }
    ensures content { IfErr result IsOfContent }
{
    match read_study(alloc, bytes) {
        Ok(study) => return Ok(study),
        Err(fault) => return Err(study_refusal(fault)),
    }
}

/// The study of a name.
pub(crate) fn load_study<F: Files>(
    alloc: Global,
    files: &mut F,
    name: &str,
) -> Result<Study, Refusal>
    ensures { Loads (λ s. s) (right_study name.now)
        (seen F.held F.sound F.load_faults F.save_faults files.old)
        (seen F.held F.sound F.load_faults F.save_faults files.new) result }
{
    let bytes = load(alloc, files, name, STUDY_LIMIT, FileRole::Study)?;
    study_in(alloc, bytes.as_slice())
}
