//! The settle run.
ghost use Rattle.std.specs.Prelude.{◌≡◌, ◌≢◌, ◌+◌, ◌*◌, ◌<◌, ◌≤◌, Bool, ℕ, List, [], ◌++◌, length, IsTrue};
ghost use Rattle.std.specs.List.{slice_range};
ghost use Rattle.hz_core.specs.declared.tri.Tri.{Tri};
ghost use Rattle.hz_lists.specs.Listed.{is_listed};
ghost use Rattle.hz_net.specs.Network.{Driver, network_of};
ghost use Rattle.hz_gmw.specs.RunRecord.{flip_count};
ghost use Rattle.hz_gmw.specs.Runs.{end_of};
ghost use Rattle.hz_reach.specs.Order.{IsInKeyOrder, key_at};
ghost use Rattle.hz_reach.specs.Room.{Spends, HasRoomFor};
ghost use Rattle.hz_reach.specs.Spread.{IsSparingRun};
ghost use Rattle.hz_reach.specs.Given.{IsScratchFor, IsEmptyRun};
ghost use Rattle.hz_reach.specs.Cycles.{AreResultsOfBoth, IsSettleRun};
ghost use Rattle.hz_reach.specs.Rounds.{differing_variables, IsOneRound, AreRoundsOf, AreRoundsMade};
ghost use Rattle.hz_reach.specs.Turned.{IsTurned};

use crate::passing::make_pass;
use crate::{Change, Scratch, sparing_in_order};
use hz_core::Tri;
use hz_gmw::Run;
use hz_net::Net;

/// What both algorithms give for a change: their results, the ranks and the settling rounds.
#[derive(Clone, Copy)]
pub struct Results<'a> {
    /// The result of Algorithm A.
    pub a: &'a [Tri],
    /// The ranks of Algorithm A.
    pub ranks: &'a [u32],
    /// The result of Algorithm B.
    pub b: &'a [Tri],
    /// The settling rounds of Algorithm B.
    pub when: &'a [u32],
}

/// The settle run: a run from a start that is stable under its own inputs, in whose last state each variable that is not X
/// in the result of Algorithm B has its value there and is stable. That state is turned, so that a cycle may begin in it.
///
/// First comes the spread run, without the wires that it does not need. Then, round by round of Algorithm B, the variables
/// that it makes 0 or 1 take their values. Last comes one pass over the gates that are X.
///
/// `a`, `rank`, `when` and `b` are what Algorithms A and B give for this start and input: their results, the ranks and the
/// settling rounds. The last state stands in `scratch` afterwards, and its variables are sorted by rank. It takes no memory and
/// cannot fail.
pub fn settle_run(
    net: &Net,
    start: &[bool],
    input: &[bool],
    a: &[Tri],
    rank: &[u32],
    when: &[u32],
    b: &[Tri],
    scratch: &mut Scratch,
    run: &mut Run,
)
    requires change { AreResultsOfBoth net.now start.now input.now a.now rank.now b.now when.now }
    requires scratch { IsScratchFor net.now scratch.old }
    requires run { IsEmptyRun (2 * length (network_of net.now)) run.old }
    ensures run { IsSettleRun (network_of net.now) input.now start.now a.now b.now run.new.steps }
    ensures turned { IsTurned (network_of net.now) rank.now b.now scratch.new.state }
    ensures state { scratch.new.state ≡ end_of start.now run.new.steps }
    ensures marked { scratch.new.marked ≡ [] }
    ensures sorted { IsInKeyOrder rank.now scratch.new.sorted }
    ensures room { Spends run.old run.new }
{
    scratch.sort(rank);
    let change = Change { net, start, input };
    sparing_in_order(&change, a, rank, scratch, run);
    let results = Results {
        a,
        ranks: rank,
        b,
        when,
    };
    settle_from(&change, &results, scratch, run);
}

/// The settle run, if the run has its beginning already, the spread run without the wires that it does not need, and `scratch`
/// has the last state of that. The variables of `scratch` are sorted by rank, and stay so.
pub fn settle_from(change: &Change, results: &Results, scratch: &mut Scratch, run: &mut Run)
    requires change { AreResultsOfBoth change.now.net.now change.now.start.now change.now.input.now
        results.now.a.now results.now.ranks.now results.now.b.now results.now.when.now }
    requires begun { IsSparingRun (network_of change.now.net.now)
        change.now.input.now change.now.start.now
        results.now.a.now results.now.ranks.now run.old.steps }
    requires state { scratch.old.state ≡ end_of change.now.start.now run.old.steps }
    requires none_marked { scratch.old.marked ≡ [] }
    requires sorted { IsInKeyOrder results.now.ranks.now scratch.old.sorted }
    requires room_for_flips { 2 * length (network_of change.now.net.now) ≤
        run.old.spare_flips + flip_count run.old.steps }
    requires room_for_steps { 2 * length (network_of change.now.net.now) ≤
        run.old.spare_steps + length run.old.steps }
    ensures run { IsSettleRun (network_of change.now.net.now)
        change.now.input.now change.now.start.now
        results.now.a.now results.now.b.now run.new.steps }
    ensures turned { IsTurned (network_of change.now.net.now)
        results.now.ranks.now results.now.b.now scratch.new.state }
    ensures state { scratch.new.state ≡ end_of change.now.start.now run.new.steps }
    ensures marked { scratch.new.marked ≡ [] }
    ensures sorted { IsInKeyOrder results.now.ranks.now scratch.new.sorted }
    ensures goes_on { (made : List (List ℕ)) × (run.new.steps ≡ run.old.steps ++ made) }
    ensures room { Spends run.old run.new }
{
    change.net.keeps_shape();
    settle_rounds(results.when, results.b, scratch, run);
    make_pass(change.net, results.ranks, results.b, scratch, run);
}

// Round by round, the variables that settle take their values.
fn settle_rounds(when: &[u32], b: &[Tri], scratch: &mut Scratch, run: &mut Run)
    requires when { length when.now ≡ length scratch.old.state }
    requires b { length b.now ≡ length scratch.old.state }
    requires none_marked { scratch.old.marked ≡ [] }
    requires among { (i : ℕ) → key_at when.now i ≢ 0 → IsTrue (is_listed scratch.old.sorted i) }
    requires rounds { (net : List Driver) × (input : List Bool) × (a : List Tri) ×
        AreRoundsOf net input a when.now b.now scratch.old.state }
    requires room { HasRoomFor (length when.now) run.old }
    ensures rounds { AreRoundsMade when.now b.now
        scratch.old.state run.old.steps run.new.steps scratch.new.state }
    ensures marked { scratch.new.marked ≡ [] }
    ensures sorted { scratch.new.sorted ≡ scratch.old.sorted }
    ensures room { Spends run.old run.new }
{
    scratch.sort_rounds(when);
    let mut place = 0;
    while place < scratch.by_round().len() {
        place = mark_round(when, b, place, scratch);
        scratch.step(run);
    }
}

// Marks, of the variables of one round, those that have yet to take their values. Returns where the next round begins.
fn mark_round(when: &[u32], b: &[Tri], from: usize, scratch: &mut Scratch) -> usize
    requires when { length when.now ≡ length scratch.old.state }
    requires b { length b.now ≡ length scratch.old.state }
    requires by_round { IsInKeyOrder when.now scratch.old.by_round }
    requires from { from < length scratch.old.by_round }
    requires none_marked { scratch.old.marked ≡ [] }
    ensures round { IsOneRound when.now scratch.old.by_round from result }
    ensures marked { scratch.new.marked ≡
        differing_variables b.now scratch.old.state (slice_range scratch.old.by_round from result) }
    ensures state { scratch.new.state ≡ scratch.old.state }
    ensures by_round { scratch.new.by_round ≡ scratch.old.by_round }
    ensures sorted { scratch.new.sorted ≡ scratch.old.sorted }
{
    let places = scratch.by_round().len();
    let round = when[scratch.by_round()[from] as usize];
    for place in from..places {
        let var = scratch.by_round()[place];
        if when[var as usize] != round {
            return place;
        }
        let has_its_value = b[var as usize].admits(scratch.state()[var as usize]);
        scratch.mark_if(!has_its_value, var);
    }
    places
}
