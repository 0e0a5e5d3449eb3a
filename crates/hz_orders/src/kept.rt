//! A run that keeps orders and comes to rest.
ghost use Rattle.std.specs.Prelude.{◌≡◌, false, [], IfOk, OnOk, IsTrue};
ghost use Rattle.hz_net.specs.Network.{network_of, AreByVariable, IsInput};
ghost use Rattle.hz_net.specs.Starts.{IsStableStart};
ghost use Rattle.hz_witness.specs.Witness.{AreCounts};
ghost use Rattle.hz_orders.specs.Kept.{IsKeptRun};

use crate::OrderedChange;
use crate::check::{keeps_orders, second_wires};
use crate::rest::comes_to_rest;
use crate::search::find_steps;
use hz_core::Memory;
use hz_gmw::Run;
use std::alloc::Global;

/// Searches a run that keeps the orders and comes to rest, and counts how often it changes each variable. If it finds none, which says
/// nothing about others, the run has no step.
///
/// It tries three orders of the changes, takes the run with the most, and goes no longer than four times the number of variables and some
/// steps. No contract promises this. An order of what is no variable is not shown to be kept.
pub fn kept_run(
    alloc: Global,
    change: &OrderedChange,
    run: &mut Run,
    counts: &mut [u32],
) -> Result<bool, Memory>
    requires start { IsStableStart change.now.net.now change.now.start.now }
    requires input { IsInput change.now.net.now change.now.input.now }
    requires counts { AreByVariable change.now.net.now counts.old }
    ensures kept { IfOk result (λ kept. IsTrue kept → IsKeptRun change.now.orders.now
        (network_of change.now.net.now) change.now.input.now change.now.start.now run.new.steps) }
    ensures none { IfOk result (λ kept. kept ≡ false → run.new.steps ≡ []) }
    ensures counts { OnOk result
        (AreCounts (network_of change.now.net.now) run.new.steps counts.new) }
    ensures room { AreByVariable change.now.net.now counts.new }
{
    find_steps(alloc, change, run)?;
    if is_kept_run(alloc, change, run, counts)? {
        return Ok(true);
    }
    run.clear();
    counts.fill(0);
    Ok(false)
}

// Whether steps are a run that keeps the orders and comes to rest. If they are, it counts how often they change each variable.
fn is_kept_run(
    alloc: Global,
    change: &OrderedChange,
    run: &Run,
    counts: &mut [u32],
) -> Result<bool, Memory>
    requires start { IsStableStart change.now.net.now change.now.start.now }
    requires input { IsInput change.now.net.now change.now.input.now }
    requires counts { AreByVariable change.now.net.now counts.old }
    ensures kept { IfOk result (λ kept. IsTrue kept → IsKeptRun change.now.orders.now
        (network_of change.now.net.now) change.now.input.now change.now.start.now run.now.steps) }
    ensures counts { IfOk result (λ kept. IsTrue kept →
        AreCounts (network_of change.now.net.now) run.now.steps counts.new) }
{
    let marks = second_wires(alloc, change.net.len(), change.orders)?;
    let rests = comes_to_rest(alloc, change, run)?;
    if rests {
        return Ok(keeps_orders(run, change.orders, marks.as_slice(), counts));
    }
    Ok(false)
}
