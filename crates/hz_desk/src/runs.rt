//! The three runs of a change.
ghost use Rattle.std.specs.Prelude.{◌≡◌, ◌*◌, [], length};
ghost use Rattle.hz_net.specs.Network.{network_of, IsInput};
ghost use Rattle.hz_net.specs.Starts.{IsStableStart};
ghost use Rattle.hz_gmw.specs.Runs.{end_of};
ghost use Rattle.hz_reach.specs.Given.{AreResultsOfA, IsScratchFor};
ghost use Rattle.hz_reach.specs.Order.{IsInKeyOrder};
ghost use Rattle.hz_reach.specs.Spread.{IsSpreadRun, IsSparingRun};
ghost use Rattle.hz_desk.specs.ResultsOfPasses.{ComeFromPasses};
ghost use Rattle.hz_desk.specs.Filled.{AreRuns};
ghost use Rattle.hz_desk.specs.RunProgress.{BeginAlike};
ghost use Rattle.hz_desk.specs.Room.{HasRunRoom};

use hz_core::Tri;
use hz_gmw::Run;
use hz_reach::{
    Change, Results, Scratch, add_unused, cycle_in_order, run_counts, settle_from,
    sparing_in_order, spread_flips,
};

// Makes the three runs in place of those that were there, by what both passes gave. Returns how many steps the spread run and the
// settle run have in common at their beginning.
pub(crate) fn make_runs(
    change: &Change,
    results: &Results,
    scratch: &mut Scratch,
    spread: &mut Run,
    settle: &mut Run,
    cycle: &mut Run,
) -> usize
    requires start { IsStableStart change.now.net.now change.now.start.now }
    requires input { IsInput change.now.net.now change.now.input.now }
    requires passed { ComeFromPasses change.now results.now }
    requires scratch { IsScratchFor change.now.net.now scratch.old }
    requires spread { HasRunRoom (length (network_of change.now.net.now)) spread.old }
    requires settle { HasRunRoom (2 * length (network_of change.now.net.now)) settle.old }
    requires cycle { HasRunRoom (4 * length (network_of change.now.net.now)) cycle.old }
    ensures runs { AreRuns (network_of change.now.net.now)
        change.now.input.now change.now.start.now results.now.a.now results.now.b.now
        spread.new.steps settle.new.steps cycle.new.steps }
    ensures common { BeginAlike spread.new.steps settle.new.steps result }
    ensures scratch { IsScratchFor change.now.net.now scratch.new }
    ensures spread_room { HasRunRoom (length (network_of change.now.net.now)) spread.new }
    ensures settle_room { HasRunRoom (2 * length (network_of change.now.net.now)) settle.new }
    ensures cycle_room { HasRunRoom (4 * length (network_of change.now.net.now)) cycle.new }
{
    // The steps are given by how often each variable changes.
    change.net.keeps_shape();
    run_counts();
    spread_flips();
    make_spread(change, results.a, results.ranks, scratch, spread, settle);
    let common = settle.steps();
    settle_from(change, results, scratch, settle);
    cycle.clear();
    cycle_in_order(
        change.net,
        change.input,
        results.ranks,
        results.b,
        scratch,
        cycle,
    );
    common
}

// Makes the spread run in place of the run that was there, and the beginning that the settle run has in common with it. Sorts the
// variables by rank.
fn make_spread(
    change: &Change,
    a: &[Tri],
    ranks: &[u32],
    scratch: &mut Scratch,
    spread: &mut Run,
    settle: &mut Run,
)
    requires change { AreResultsOfA change.now.net.now
        change.now.start.now change.now.input.now a.now ranks.now }
    requires scratch { IsScratchFor change.now.net.now scratch.old }
    requires spread_room { HasRunRoom (length (network_of change.now.net.now)) spread.old }
    requires settle_room { HasRunRoom (2 * length (network_of change.now.net.now)) settle.old }
    ensures spread { IsSpreadRun (network_of change.now.net.now)
        change.now.input.now change.now.start.now a.now spread.new.steps }
    ensures begun { IsSparingRun (network_of change.now.net.now)
        change.now.input.now change.now.start.now a.now ranks.now settle.new.steps }
    ensures beginning { BeginAlike spread.new.steps settle.new.steps (length settle.new.steps) }
    ensures state { scratch.new.state ≡ end_of change.now.start.now settle.new.steps }
    ensures marked { scratch.new.marked ≡ [] }
    ensures sorted { IsInKeyOrder ranks.now scratch.new.sorted }
    ensures spread_room { HasRunRoom (length (network_of change.now.net.now)) spread.new }
    ensures settle_room { HasRunRoom (2 * length (network_of change.now.net.now)) settle.new }
{
    // The room is told by how often each variable changes.
    run_counts();
    spread.clear();
    scratch.sort(ranks);
    sparing_in_order(change, a, ranks, scratch, spread);
    settle.copy_from(spread);
    add_unused(change.net, change.start, a, scratch, spread);
}
