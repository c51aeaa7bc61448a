//! The text of a server: the result, and then what its launcher did.

ghost use Rattle.std.specs.Prelude.{◌≡◌, ◌++◌};
ghost use Rattle.mls_text.specs.Writing.{WritesTo, sink_seen};
ghost use Rattle.mls_launch.specs.Writing.{WritesOut};
ghost use Rattle.mls_result.specs.Histories.{AreCores, states_text};
ghost use Rattle.mls_served.specs.Serving.{served_text};

use mls_base::faults::Failed;
use mls_base::outside::Sink;
use mls_field::field::Field;
use mls_launch::{Event, OutFault, WatchReport};
use mls_model::lanes::LaneLine;
use mls_rank::RankCore;
use mls_result::write_result;
use mls_study::Study;
use std::alloc::Global;

/// Writes the result text and then the watch text.
fn put_served<O: Sink>(
    study: &Study,
    cores: &[RankCore<Field>],
    lines: &[LaneLine],
    watch: &WatchReport,
    out: &mut O,
) -> Result<(), Failed>
    requires cores { AreCores study.now.sizes cores.now }
    ensures { WritesTo O.told O.faults O.sure out.old out.new result
        (states_text study.now cores.now lines.now ++ watch.now) }
{
    write_result(study, cores, lines, out)?;
    watch.write(out)
}

/// Writes the result text of cores, one for each rank in order, with the lines of lanes, and then the watch text of
/// events.
///
/// Nothing is written before the watch text is known, and no memory is taken from then on. After `WriteFault` a front of
/// the text went out and the sink's count of faults rose, which comes only where the sink takes fewer bytes for sure than
/// the text has; after `Memory` nothing went out.
pub fn write_served<O: Sink>(
    alloc: Global,
    study: &Study,
    cores: &[RankCore<Field>],
    lines: &[LaneLine],
    events: &[Event],
    out: &mut O,
) -> Result<(), OutFault>
    requires cores { AreCores study.now.sizes cores.now }
    ensures { WritesOut result (served_text study.now cores.now lines.now events.now)
        (sink_seen O.told O.faults O.sure out.old) (sink_seen O.told O.faults O.sure out.new) }
{
    let shape = study.shape();
    let watch = WatchReport::new(alloc, &shape, events)?;
    match put_served(study, cores, lines, &watch, out) {
        Ok(()) => Ok(()),
        Err(_) => Err(OutFault::WriteFault),
    }
}
