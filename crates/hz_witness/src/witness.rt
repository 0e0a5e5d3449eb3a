//! The run that serves all variables.
ghost use Rattle.std.specs.Prelude.{OnOk, IfOk, IsTrue};
ghost use Rattle.hz_net.specs.Network.{network_of, AreByVariable, IsInput, IsState};
ghost use Rattle.hz_reach.specs.Cycles.{AreResultsOfBoth, IsSettleRun};
ghost use Rattle.hz_reach.specs.Given.{IsScratchFor};
ghost use Rattle.hz_witness.specs.Witness.{AreSettled, DoNodesChange, IsWitness, ShowsNodes};

use crate::attempt::try_plan;
use crate::check::{are_settled, do_nodes_change};
use crate::components::components_of;
use crate::counting::count_changes;
use crate::moving::Moving;
use crate::plan::plan_of;
use hz_core::{Memory, Tri};
use hz_gmw::Run;
use hz_reach::{Change, Results, Scratch, settle_from, sparing_in_order};
use std::alloc::Global;

/// One run of a change in which each node that Algorithm A makes X changes, and how often it changes each variable. In its last state each
/// variable that Algorithm B makes 0 or 1 has this value and is stable.
///
/// The plan turns as many nodes as it can back to their values at the start before they settle. Such a node changes at least twice, and
/// at least three times if Algorithm B gives it another value than it began with. No contract promises this.
///
/// Gates have their turns component by component, and by rank in each. If this run misses a node, which is not known to happen, the run is
/// made by rank alone, and at last as the settle run, which misses none.
pub fn witness_run(
    alloc: Global,
    change: &Change,
    results: &Results,
    run: &mut Run,
    counts: &mut [u32],
) -> Result<(), Memory>
    requires change { AreResultsOfBoth change.now.net.now change.now.start.now
        change.now.input.now results.now.a.now results.now.ranks.now results.now.b.now
        results.now.when.now }
    requires counts { AreByVariable change.now.net.now counts.old }
    ensures { OnOk result (IsWitness (network_of change.now.net.now) change.now.input.now
        change.now.start.now results.now.a.now results.now.b.now run.new.steps counts.new) }
{
    change.net.keeps_shape();
    let moves = what_moves(alloc, results.a)?;
    let parts = components_of(alloc, change.net, moves.as_slice())?;
    let shown = try_parts(alloc, change, results, parts.as_slice(), counts, run)?;
    if shown {
        return Ok(());
    }
    make_by_rank(alloc, change, results, run, counts)
}

// The same without components: by rank alone, or as the settle run.
fn make_by_rank(
    alloc: Global,
    change: &Change,
    results: &Results,
    run: &mut Run,
    counts: &mut [u32],
) -> Result<(), Memory>
    requires change { AreResultsOfBoth change.now.net.now change.now.start.now
        change.now.input.now results.now.a.now results.now.ranks.now results.now.b.now
        results.now.when.now }
    requires counts { AreByVariable change.now.net.now counts.old }
    ensures { OnOk result (IsWitness (network_of change.now.net.now) change.now.input.now
        change.now.start.now results.now.a.now results.now.b.now run.new.steps counts.new) }
{
    let shown = try_parts(alloc, change, results, &[], counts, run)?;
    if shown {
        return Ok(());
    }
    let mut scratch = Scratch::new(alloc, change.net)?;
    settle(change, results, &mut scratch, run)?;
    count_changes(run, counts)?;
    Ok(())
}

// Which variables move.
fn what_moves(alloc: Global, a: &[Tri]) -> Result<Vec<bool>, Memory> {
    let mut moves = Vec::new(alloc);
    for value in a {
        moves.push(*value == Tri::Unknown)?;
    }
    Ok(moves)
}

// Makes a plan by the parts of the nodes, and tries it. Whether a witness came of it.
fn try_parts(
    alloc: Global,
    change: &Change,
    results: &Results,
    parts: &[u32],
    counts: &mut [u32],
    run: &mut Run,
) -> Result<bool, Memory>
    requires change { AreResultsOfBoth change.now.net.now change.now.start.now
        change.now.input.now results.now.a.now results.now.ranks.now results.now.b.now
        results.now.when.now }
    requires counts { AreByVariable change.now.net.now counts.old }
    ensures { IfOk result (λ shown. IsTrue shown →
        IsWitness (network_of change.now.net.now) change.now.input.now change.now.start.now
        results.now.a.now results.now.b.now run.new.steps counts.new) }
{
    change.net.keeps_shape();
    let moving = Moving {
        change,
        results,
        parts,
    };
    let plan = plan_of(alloc, moving)?;
    let mut state = vec![in alloc; false; change.net.len() as usize]?;
    attempt(
        change,
        results,
        plan.as_slice(),
        state.as_mut_slice(),
        counts,
        run,
    )
}

// Tries a plan. Whether a witness came of it.
fn attempt(
    change: &Change,
    results: &Results,
    plan: &[u32],
    state: &mut [bool],
    counts: &mut [u32],
    run: &mut Run,
) -> Result<bool, Memory>
    requires start { IsState change.now.net.now change.now.start.now }
    requires input { IsInput change.now.net.now change.now.input.now }
    requires a { AreByVariable change.now.net.now results.now.a.now }
    requires b { AreByVariable change.now.net.now results.now.b.now }
    requires state { IsState change.now.net.now state.old }
    requires counts { AreByVariable change.now.net.now counts.old }
    ensures { IfOk result (λ shown. IsTrue shown →
        IsWitness (network_of change.now.net.now) change.now.input.now change.now.start.now
        results.now.a.now results.now.b.now run.new.steps counts.new) }
{
    try_plan(change, plan, state, counts, run)?;
    Ok(is_shown(change, results, counts, state))
}

// Whether what was tried shows what a witness shows.
fn is_shown(change: &Change, results: &Results, counts: &[u32], state: &[bool]) -> bool
    requires a { AreByVariable change.now.net.now results.now.a.now }
    requires b { AreByVariable change.now.net.now results.now.b.now }
    requires counts { AreByVariable change.now.net.now counts.now }
    requires state { IsState change.now.net.now state.now }
    requires input { IsInput change.now.net.now change.now.input.now }
    ensures nodes { IsTrue result →
        DoNodesChange (network_of change.now.net.now) results.now.a.now counts.now }
    ensures settled { IsTrue result →
        AreSettled (network_of change.now.net.now) change.now.input.now results.now.b.now
        state.now }
{
    if !do_nodes_change(change.net, results.a, counts) {
        return false;
    }
    are_settled(change.net, change.input, results.b, state)
}

// The settle run, in which each node that is X in the result of Algorithm A changes.
fn settle(
    change: &Change,
    results: &Results,
    scratch: &mut Scratch,
    run: &mut Run,
) -> Result<(), Memory>
    requires change { AreResultsOfBoth change.now.net.now change.now.start.now
        change.now.input.now results.now.a.now results.now.ranks.now results.now.b.now
        results.now.when.now }
    requires scratch { IsScratchFor change.now.net.now scratch.old }
    ensures run { OnOk result (IsSettleRun (network_of change.now.net.now)
        change.now.input.now change.now.start.now
        results.now.a.now results.now.b.now run.new.steps) }
    ensures nodes { OnOk result (ShowsNodes (network_of change.now.net.now) results.now.a.now
        run.new.steps) }
{
    change.net.keeps_shape();
    let room = 2 * change.net.len() as usize;
    run.clear();
    run.reserve(room, room)?;
    scratch.sort(results.ranks);
    sparing_in_order(change, results.a, results.ranks, scratch, run);
    settle_from(change, results, scratch, run);
    Ok(())
}
