//! Whether steps are a run that comes to rest.
ghost use Rattle.std.specs.Prelude.{◌≡◌, ◌<◌, ◌++◌, ℕ, List, [], ◌∷◌, length, All, IfOk, IsTrue};
ghost use Rattle.hz_net.specs.Network.{network_of, IsInput, IsState, IsVariable};
ghost use Rattle.hz_gmw.specs.Instability.{unstable_count};
ghost use Rattle.hz_gmw.specs.Replayer.{StandsFor};
ghost use Rattle.hz_orders.specs.Kept.{IsRestingRun};

use crate::OrderedChange;
use hz_core::Memory;
use hz_gmw::{Replay, Run};
use std::alloc::Global;

/// Whether steps are a run of a change, and no variable is unstable in its last state.
pub(crate) fn comes_to_rest(
    alloc: Global,
    change: &OrderedChange,
    run: &Run,
) -> Result<bool, Memory>
    requires start { IsState change.now.net.now change.now.start.now }
    requires input { IsInput change.now.net.now change.now.input.now }
    ensures { IfOk result (λ rests. IsTrue rests →
        IsRestingRun (network_of change.now.net.now) change.now.input.now change.now.start.now
        run.now.steps) }
{
    let variables = change.net.len();
    let mut replay = Replay::new(alloc, change.net)?;
    replay.begin(change.input, change.start);
    Ok(rests(&mut replay, variables, run))
}

// Whether a replayer can make all steps of a run, and no variable is unstable then.
fn rests(replay: &mut Replay, variables: u32, run: &Run) -> bool
    requires variables { variables ≡ length (network_of replay.old.circuit) }
    requires begins { StandsFor replay.old [] }
    ensures { IsTrue result → IsRestingRun (network_of replay.old.circuit) replay.old.input
        replay.old.marked run.now.steps }
{
    if !replays(replay, variables, run) {
        return false;
    }
    is_at_rest(replay)
}

// Whether no variable is unstable where a replayer stands.
fn is_at_rest(replay: &Replay) -> bool
    ensures { IsTrue result →
        unstable_count (network_of replay.now.circuit) replay.now.input replay.now.state ≡ 0 }
{
    replay.unstable_count() == 0
}

// Whether a replayer can make all steps of a run.
fn replays(replay: &mut Replay, variables: u32, run: &Run) -> bool
    requires variables { variables ≡ length (network_of replay.old.circuit) }
    requires begins { StandsFor replay.old [] }
    ensures run { IsTrue result → StandsFor replay.new run.now.steps }
    ensures circuit { replay.new.circuit ≡ replay.old.circuit }
    ensures input { replay.new.input ≡ replay.old.input }
    ensures marked { replay.new.marked ≡ replay.old.marked }
{
    for number in 0..run.steps() {
        if !can_step(replay, variables, run.step(number)) {
            return false;
        }
    }
    true
}

// Makes a step, if it is one.
fn can_step(replay: &mut Replay, variables: u32, flips: &[u32]) -> bool
    requires { variables ≡ length (network_of replay.old.circuit) }
    ensures step { IsTrue result → (steps : List (List ℕ)) → StandsFor replay.old steps
        → StandsFor replay.new (steps ++ flips.now ∷ []) }
    ensures circuit { replay.new.circuit ≡ replay.old.circuit }
    ensures input { replay.new.input ≡ replay.old.input }
    ensures marked { replay.new.marked ≡ replay.old.marked }
{
    if !are_variables(variables, flips) {
        return false;
    }
    replay.step(flips).is_ok()
}

// Whether all numbers are those of variables.
fn are_variables(variables: u32, flips: &[u32]) -> bool
    ensures { IsTrue result → All (λ var. var < variables) flips.now }
{
    flips.iter().all(|var| *var < variables)
}
