//! The sizes of lanes, and of tapes with one lane more.

ghost use Rattle.std.specs.Prelude.{◌≡◌, ℕ, ◌+◌, ◌*◌, ◌^◌, ◌<◌, ◌≤◌, cond, false, Some, None};
ghost use Rattle.mls_model.specs.Studies.{planes};
ghost use Rattle.mls_design.specs.Trial.{planned, resent_lane, lane_with, sent, piece_count};
ghost use Rattle.mls_design.specs.TrialSizes.{HasDrawn, IsPlan, piece_bytes, lane_size, grown, is_over};
ghost use Rattle.mls_model.specs.declared.lanes.LaneKind.TheVariants.{Client};

use crate::trial::plan::Plan;
use crate::trial::route::Route;
use crate::trial::size::Size;
use crate::trial::words::copies_drawn;
use mls_study::Study;
use rand_pcg::Lcg64Xsh32;

/// The most bytes and events of a tape.
const MOST_BYTES: u64 = 1_073_741_824;

const MOST_EVENTS: u64 = 16_777_216;

/// The bytes of a piece on a route.
fn piece_bytes(study: &Study, route: Route) -> u64
    requires rank_in { route.rank < study.now.sizes.ranks }
    requires client_in { route.client < study.now.sizes.clients }
    ensures value { result ≡ piece_bytes study.now route }
    ensures few { result ≤ 67108864 }
{
    study.valid();
    let shape = study.shape();
    let cells = shape.overlap(route.rank, route.client);
    29 + 2 * ((2 + shape.parameters()) as u64 * (cells.end - cells.first) as u64)
}

/// Draws the words of a first lane's planned pieces: the size of what is written of them.
pub fn first_lane_size(study: &Study, plan: Plan, words: &mut Lcg64Xsh32, route: Route) -> Size
    requires rank_in { route.rank < study.now.sizes.ranks }
    requires client_in { route.client < study.now.sizes.clients }
    requires beats { plan.beats ≤ 131070 }
    requires pieces { plan.pieces ≤ 2147483648 }
    ensures value { (number n : ℕ) → IsPlan study.now number plan → HasDrawn number n words.old →
        (result ≡ lane_size (lane_with route.rank Client (sent number n (planned study.now number route))))
        × HasDrawn number (n + piece_count (planned study.now number route)) words.new }
    ensures bytes { result.bytes ≤ 2 ^ 60 }
    ensures events { result.events ≤ 2 ^ 60 }
{
    let written = copies_drawn(words, plan.pieces);
    Size {
        bytes: 13 * plan.beats + piece_bytes(study, route) * written,
        events: plan.beats + written,
    }
}

/// The size of a resent lane.
pub fn resent_lane_size(study: &Study, route: Route) -> Size
    requires rank_in { route.rank < study.now.sizes.ranks }
    requires client_in { route.client < study.now.sizes.clients }
    ensures value { result ≡ lane_size (resent_lane study.now route) }
    ensures bytes { result.bytes ≤ 2 ^ 60 }
    ensures events { result.events ≤ 2 ^ 60 }
{
    study.valid();
    let shape = study.shape();
    let pieces = shape.groups() as u64 * shape.planes() as u64;
    Size {
        bytes: piece_bytes(study, route) * pieces,
        events: pieces,
    }
}

/// Whether a tape of this size would pass a limit.
#[tactic(auto, unfolding(crate::specs::TrialSizes::is_over))]
fn is_over(size: Size) -> bool
    ensures { result ≡ is_over size }
{
    size.bytes > MOST_BYTES || size.events > MOST_EVENTS
}

/// The size with one lane more, where it passes no limit.
pub fn with_lane(total: Size, lane: Size) -> Option<Size>
    requires total { is_over total ≡ false }
    requires lane_bytes { lane.bytes ≤ 2 ^ 60 }
    requires lane_events { lane.events ≤ 2 ^ 60 }
    ensures { result ≡ cond (is_over (grown total lane)) None (Some (grown total lane)) }
{
    let size = Size {
        bytes: total.bytes + (7 + lane.bytes),
        events: total.events + lane.events,
    };
    if is_over(size) {
        return None;
    }
    Some(size)
}
