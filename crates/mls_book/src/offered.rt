//! What an offer of an event answers.

use mls_model::outcomes::Outcome;

/// What became of an offered event.
#[derive(Clone, Copy, Debug, PartialEq, Eq)]
pub enum Offered {
    /// It was taken at this place of the journal, from 0, with this outcome.
    Taken { place: u64, outcome: Outcome },
    /// It isn't the next event of its lane, of which so many were taken.
    Stale { taken: u64 },
}
