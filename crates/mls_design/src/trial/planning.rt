//! How much the groups plan to send on a route.

ghost use Rattle.std.specs.Prelude.{◌≡◌, ℕ, ◌+◌, ◌*◌, ◌≤◌, map, length};
ghost use Rattle.mls_model.specs.Numbers.{below};
ghost use Rattle.mls_design.specs.Trial.{is_restarted};
ghost use Rattle.mls_design.specs.TrialSizes.{IsPlan, beats_by, pieces_by};

use crate::trial::plan::Plan;
use mls_study::Study;

/// How many pieces a group plans to send on a route.
fn pieces_by(study: &Study, again: bool) -> u64
    ensures value { result ≡ pieces_by study.now again }
    ensures few { result ≤ 2 * (study.now.sizes.steps * study.now.sizes.fields) }
{
    let shape = study.shape();
    if again {
        (shape.steps() / 2 * shape.fields()) as u64 + shape.planes() as u64
    } else {
        shape.planes() as u64
    }
}

/// How many beats a group plans to send on a route.
fn beats_by(again: bool) -> u64
    ensures value { result ≡ beats_by again }
    ensures few { result ≤ 2 }
{
    if again { 2 } else { 1 }
}

/// What the groups plan to send, from whether each is restarted.
pub fn plan_of(study: &Study, restarted: &[bool]) -> Plan
    requires { length restarted.now ≡ study.now.sizes.groups }
    ensures value { (number : ℕ) → restarted.now ≡ map (is_restarted number) (below study.now.sizes.groups) →
        IsPlan study.now number result }
    ensures beats { result.beats ≤ 131070 }
    ensures pieces { result.pieces ≤ 2147483648 }
{
    study.valid();
    let mut beats = 0u64;
    let mut pieces = 0u64;
    for group in 0..restarted.len() {
        beats += beats_by(restarted[group]);
        pieces += pieces_by(study, restarted[group]);
    }
    Plan { beats, pieces }
}
