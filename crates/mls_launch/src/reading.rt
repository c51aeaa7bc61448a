//! The events file, a line for each event.

ghost use Rattle.std.specs.Prelude.{◌≡◌, ◌≤◌, ℕ, List, [], ◌∷◌, length, Ok, IfOk, IfErr, MatchResult, false};
ghost use Rattle.mls_launch.specs.EventsText.{events_text};
ghost use Rattle.mls_launch.specs.EventFaults.{IsRefused, IsExact};
ghost use Rattle.mls_launch.specs.EventReading.{after_in, tick_in, rank_in, life_in, event_in, events_of};
ghost use Rattle.mls_text.specs.Fronts.{seen, seen_rest};

use mls_model::launcher::Event;
use mls_text::number_before;
use std::alloc::{AllocFailed, Global};

/// Why bytes are no events file.
#[derive(Clone, Copy, Debug, PartialEq, Eq)]
pub enum EventFault {
    /// The first line that is the line of no event, numbered from 1.
    Line { line: u32 },
    /// Memory ran out.
    Memory,
}

impl<T: Drop> From<AllocFailed<T>> for EventFault {
    ghost use Rattle.std.specs.Prelude.{◌≡◌};
    ghost use Rattle.mls_launch.specs.declared.reading.EventFault.TheVariants.{Memory};

    ghost from_gives = { λ _ fault. fault ≡ Memory };

    fn from(_error: AllocFailed<T>) -> EventFault {
        EventFault::Memory
    }
}

/// The bytes behind a front.
fn after<'a>(bytes: &'a [u8], front: &[u8]) -> Option<&'a [u8]>
    ensures { seen_rest result ≡ after_in front.now bytes.now }
{
    bytes.strip_prefix(front)
}

#[tactic(auto, unfolding(crate::specs::EventReading::tick_in))]
fn tick_in(bytes: &[u8]) -> Option<(Event, &[u8])>
    ensures { seen result ≡ tick_in bytes.now }
{
    let (now, rest) = number_before(bytes, b'\n')?;
    Some((Event::Tick { now }, rest))
}

#[tactic(auto, unfolding(crate::specs::EventReading::rank_in))]
fn rank_in(bytes: &[u8]) -> Option<(Event, &[u8])>
    ensures { seen result ≡ rank_in bytes.now }
{
    let (rank, rest) = number_before(bytes, b' ')?;
    let (now, rest) = number_before(rest, b'\n')?;
    Some((Event::RankBeat { rank, now }, rest))
}

#[tactic(auto, unfolding(crate::specs::EventReading::life_in))]
fn beat_in(bytes: &[u8]) -> Option<(Event, &[u8])>
    ensures { seen result ≡ life_in (λ group life now. Event.Beat group life now) bytes.now }
{
    let (group, rest) = number_before(bytes, b' ')?;
    let (life, rest) = number_before(rest, b' ')?;
    let (now, rest) = number_before(rest, b'\n')?;
    Some((Event::Beat { group, life, now }, rest))
}

#[tactic(auto, unfolding(crate::specs::EventReading::life_in))]
fn done_in(bytes: &[u8]) -> Option<(Event, &[u8])>
    ensures { seen result ≡ life_in (λ group life now. Event.Done group life now) bytes.now }
{
    let (group, rest) = number_before(bytes, b' ')?;
    let (life, rest) = number_before(rest, b' ')?;
    let (now, rest) = number_before(rest, b'\n')?;
    Some((Event::Done { group, life, now }, rest))
}

/// The event whose line stands at the front, and the bytes behind it.
#[tactic(auto, unfolding(crate::specs::EventReading::event_in))]
fn event_in(bytes: &[u8]) -> Option<(Event, &[u8])>
    ensures { seen result ≡ event_in bytes.now }
{
    if let Some(rest) = after(bytes, b"tick ") {
        return tick_in(rest);
    }
    if let Some(rest) = after(bytes, b"beat ") {
        return beat_in(rest);
    }
    if let Some(rest) = after(bytes, b"done ") {
        return done_in(rest);
    }
    if let Some(rest) = after(bytes, b"rank ") {
        return rank_in(rest);
    }
    None
}

/// The events of a file. `Line` is answered exactly at the first line that is the line of no event.
pub fn read_events(alloc: Global, bytes: &[u8]) -> Result<Vec<Event>, EventFault>
    requires { length bytes.now ≤ 16777216 }
    ensures read { IfOk result (λ events. bytes.now ≡ events_text events.items) }
    ensures refused { IfErr result (λ fault. IsRefused fault bytes.now) }
    ensures exact { MatchResult result
        (λ events. events_of bytes.now ≡ Ok events.items)
        (λ fault. IsExact fault (events_of bytes.now)) }
{
    let mut events = Vec::new(alloc);
    let mut rest = bytes;
    while !rest.is_empty() {
        match event_in(rest) {
            Some((event, after)) => {
                events.push(event)?;
                rest = after;
            }
            None => {
                return Err(EventFault::Line {
                    line: events.len() as u32 + 1,
                });
            }
        }
    }
    Ok(events)
}
