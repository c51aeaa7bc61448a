//! The command `watch`.

ghost use Rattle.std.specs.Prelude.{◌≡◌, ◌≤◌, List, length, true, IfErr};
ghost use Rattle.mls_model.specs.WatchText.{watch_text};
ghost use Rattle.mls_launch.specs.Writing.{WritesOut};
ghost use Rattle.mls_cli.specs.Watch.{events_limit, content_events, right_events, right_watch};
ghost use Rattle.mls_text.specs.Writing.{sink_seen};
ghost use Rattle.mls_book.specs.Keepers.{KeeperState};
ghost use Rattle.mls_cli.specs.Tasks.{nothing, saves_none};
ghost use Rattle.mls_cli.specs.Answers.{Carries};
ghost use Rattle.mls_export.specs.Files.{seen};
ghost use Rattle.mls_cli.specs.Refusals.{Agrees, IsOfContent, Loads};

use crate::loading::{load, load_study};
use crate::refusal::Refusal;
use crate::written::out_status;
use mls_base::outside::{Files, Sink};
use mls_launch::{Event, EventFault, OutFault, read_events, write_watch};
use mls_result::{FileRole, Status};
use mls_study::Study;
use std::alloc::Global;

/// The most bytes of an events file.
const EVENTS_LIMIT: u64 = 16777216;

/// What a watch begins with.
#[derive(Drop)]
struct WatchInputs {
    study: Study,
    events: Vec<Event>,
}

/// The events in these bytes.
fn events_in(alloc: Global, bytes: &[u8]) -> Result<Vec<Event>, Refusal>
    requires { length bytes.now ≤ events_limit }
    ensures right { Agrees true (λ e. e.items) result (content_events bytes.now) }
    ensures content { IfErr result IsOfContent }
{
    match read_events(alloc, bytes) {
        Ok(events) => return Ok(events),
        Err(EventFault::Line { line }) => return Err(Refusal::Events { line }),
        Err(EventFault::Memory) => return Err(Refusal::Memory),
    }
}

/// The events of a name.
fn load_events<F: Files>(alloc: Global, files: &mut F, name: &str) -> Result<Vec<Event>, Refusal>
    ensures { Loads (λ e. e.items) (right_events name.now)
        (seen F.held F.sound F.load_faults F.save_faults files.old)
        (seen F.held F.sound F.load_faults F.save_faults files.new) result }
{
    let bytes = load(alloc, files, name, EVENTS_LIMIT, FileRole::Events)?;
    events_in(alloc, bytes.as_slice())
}

/// The study and the events of these names.
fn load_inputs<F: Files>(
    alloc: Global,
    files: &mut F,
    study_name: &str,
    events_name: &str,
) -> Result<WatchInputs, Refusal>
    ensures { Loads (λ (inputs : WatchInputs). watch_text inputs.study.sizes inputs.events.items)
        (right_watch study_name.now events_name.now)
        (seen F.held F.sound F.load_faults F.save_faults files.old)
        (seen F.held F.sound F.load_faults F.save_faults files.new) result }
{
    let study = load_study(alloc, files, study_name)?;
    let events = load_events(alloc, files, events_name)?;
    Ok(WatchInputs { study, events })
}

/// Writes the watch text.
fn write_inputs<O: Sink>(alloc: Global, inputs: &WatchInputs, out: &mut O) -> Result<(), OutFault>
    ensures { WritesOut result (watch_text inputs.now.study.sizes inputs.now.events.items)
        (sink_seen O.told O.faults O.sure out.old) (sink_seen O.told O.faults O.sure out.new) }
{
    let shape = inputs.study.shape();
    write_watch(alloc, &shape, inputs.events.as_slice(), out)
}

/// Prints a launcher's decisions over the events of a name.
pub(crate) fn run_watch<F: Files, O: Sink>(
    alloc: Global,
    study_name: &str,
    events_name: &str,
    files: &mut F,
    out: &mut O,
) -> Status
    ensures carried { (keepers : List KeeperState) → Carries saves_none (right_watch study_name.now events_name.now) (λ held. nothing)
        (seen F.held F.sound F.load_faults F.save_faults files.old)
        (seen F.held F.sound F.load_faults F.save_faults files.new)
        (sink_seen O.told O.faults O.sure out.old) (sink_seen O.told O.faults O.sure out.new) keepers keepers result }
    ensures no_usage { result ≡ Status.Usage → ⊥ }
{
    match load_inputs(alloc, files, study_name, events_name) {
        Ok(inputs) => {
            let answer = write_inputs(alloc, &inputs, out);
            return out_status(answer);
        }
        Err(refusal) => return refusal.into(),
    }
}
