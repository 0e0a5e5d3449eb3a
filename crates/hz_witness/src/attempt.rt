//! Plans that are tried: what is unstable when its turn comes is flipped, so whatever the plan, it is a run.
ghost use Rattle.std.specs.Prelude.{◌≡◌, ◌+◌, ◌<◌, ◌++◌, Bool, not, List, [], ◌∷◌, length, slice_set, slice_index_or, OnOk};
ghost use Rattle.hz_net.specs.Network.{bit_at, network_of, AreByVariable, IsInput, IsState, IsVariable};
ghost use Rattle.hz_witness.specs.Witness.{IsTried};

use hz_core::Memory;
use hz_gmw::Run;
use hz_net::Net;
use hz_reach::Change;

// Flips a variable if it is unstable, as a step of its own, and counts the change.
fn try_flip(
    net: &Net,
    input: &[bool],
    var: u32,
    state: &mut [bool],
    counts: &mut [u32],
    run: &mut Run,
) -> Result<(), Memory>
    requires input { IsInput net.now input.now }
    requires var { IsVariable net.now var }
    requires state { IsState net.now state.old }
    requires counts { AreByVariable net.now counts.old }
    ensures { OnOk result ((start : List Bool) →
        IsTried (network_of net.now) input.now start run.old.steps state.old counts.old →
        IsTried (network_of net.now) input.now start run.new.steps state.new counts.new) }
{
    if state[var as usize] == net.excite(input, state, var) {
        return Ok(());
    }
    flip(var, state, counts, run)?;
    Ok(())
}

// Flips a variable, as a step of its own, and counts the change.
fn flip(var: u32, state: &mut [bool], counts: &mut [u32], run: &mut Run) -> Result<(), Memory>
    requires state { var < length state.old }
    requires counts { var < length counts.old }
    ensures state { OnOk result (state.new ≡ slice_set state.old var (not (bit_at state.old var))) }
    ensures counts { OnOk result
        (counts.new ≡ slice_set counts.old var (slice_index_or counts.old var 0 + 1)) }
    ensures run { OnOk result (run.new.steps ≡ run.old.steps ++ (var ∷ []) ∷ []) }
{
    let Some(more) = counts[var as usize].checked_add(1) else {
        return Err(Memory);
    };
    run.reserve(1, 1)?;
    run.push_step(&[var]);
    state[var as usize] = !state[var as usize];
    counts[var as usize] = more;
    Ok(())
}

/// Tries to flip each variable of a plan, one after the other, from the start of a change. What is no variable is passed over. The
/// run that is made takes the place of the one that was there.
pub(crate) fn try_plan(
    change: &Change,
    plan: &[u32],
    state: &mut [bool],
    counts: &mut [u32],
    run: &mut Run,
) -> Result<(), Memory>
    requires start { IsState change.now.net.now change.now.start.now }
    requires input { IsInput change.now.net.now change.now.input.now }
    requires state { IsState change.now.net.now state.old }
    requires counts { AreByVariable change.now.net.now counts.old }
    ensures { OnOk result (IsTried (network_of change.now.net.now) change.now.input.now
        change.now.start.now run.new.steps state.new counts.new) }
{
    run.clear();
    state.copy_from_slice(change.start);
    counts.fill(0);
    for var in plan {
        if *var < change.net.len() {
            try_flip(change.net, change.input, *var, state, counts, run)?;
        }
    }
    Ok(())
}
