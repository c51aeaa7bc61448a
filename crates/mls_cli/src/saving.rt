//! The files that a trial saves before its fold.

ghost use Rattle.std.specs.Prelude.{◌≡◌};
ghost use Rattle.mls_model.specs.Schedules.{schedule_text};
ghost use Rattle.mls_export.specs.Files.{seen};
ghost use Rattle.mls_cli.specs.Saving.{SavesNamed, SavesPair, save_status};

use crate::words::NamePair;
use mls_base::faults::StoreFault;
use mls_base::outside::Files;
use mls_design::Made;
use mls_result::Status;
use std::alloc::Global;

/// Saves a tape and then a schedule, each under its name. Where both are one name the schedule stays.
fn save_pair<F: Files>(
    alloc: Global,
    files: &mut F,
    names: &NamePair,
    tape: &[u8],
    schedule: &[u8],
) -> Result<(), StoreFault>
    ensures { SavesPair names.now tape.now schedule.now result
        (seen F.held F.sound F.load_faults F.save_faults files.old)
        (seen F.held F.sound F.load_faults F.save_faults files.new) }
{
    files.save(alloc, names.tape.as_str(), tape)?;
    files.save(alloc, names.schedule.as_str(), schedule)
}

/// Saves what was made where there are names for it, the tape first. The schedule's text is made before.
pub(crate) fn save_made<F: Files>(
    alloc: Global,
    files: &mut F,
    names: &Option<NamePair>,
    made: &Made,
) -> Result<(), StoreFault>
    ensures { SavesNamed names.now made.now.tape.bytes (schedule_text made.now.schedule) result
        (seen F.held F.sound F.load_faults F.save_faults files.old)
        (seen F.held F.sound F.load_faults F.save_faults files.new) }
{
    match names {
        Some(names) => {
            let text = match made.schedule.put(alloc) {
                Ok(text) => text,
                Err(_) => return Err(StoreFault::Memory),
            };
            return save_pair(alloc, files, names, made.tape.bytes(), text.as_slice());
        }
        None => return Ok(()),
    }
}

/// What a command answers after a save that did not succeed.
pub(crate) fn save_status(fault: StoreFault) -> Status
    ensures { result ≡ save_status fault }
{
    match fault {
        StoreFault::Failed => Status::WriteFault,
        StoreFault::Memory => Status::Memory,
    }
}
