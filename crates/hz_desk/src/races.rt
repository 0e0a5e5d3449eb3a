//! Race states, counted while a follower goes along the runs. Without `sees_two_unstable_after` an analysis takes 2.6 to 3.7 % more.
ghost use Rattle.std.specs.Prelude.{◌≡◌, ◌≤◌, ◌+◌, length, drop, All, if◌then◌else◌};
ghost use Rattle.std.specs.List.{slice_range};
ghost use Rattle.hz_net.specs.Network.{network_of, IsState, IsInput, IsVariable};
ghost use Rattle.hz_lists.specs.Listed.{IsRepeatFree};
ghost use Rattle.hz_gmw.specs.Runs.{IsRun, end_of, state_after};
ghost use Rattle.hz_gmw.specs.Cycles.{states_of};
ghost use Rattle.hz_desk.specs.Races.{is_race, race_count, states_before, cycle_states};
ghost use Rattle.hz_desk.specs.RunProgress.{IsShortRun, BeginAlike, most_short_steps};
ghost use Rattle.hz_desk.specs.Filled.{AreRacesOf};

use hz_gmw::{Follower, Run};
use hz_reach::Change;

/// How many states of each run are race states.
#[derive(Clone, Copy)]
pub(crate) struct Races {
    pub spread: u32,
    pub settle: u32,
    pub cycle: u32,
}

// Counts the race states of the three runs of a change. The spread run and the settle run begin with the same steps, which the
// follower makes once.
pub(crate) fn count_races(
    follower: &mut Follower,
    change: &Change,
    spread: &Run,
    settle: &Run,
    cycle: &Run,
    common: usize,
) -> Races
    requires input { IsInput follower.old.circuit change.now.input.now }
    requires start { IsState follower.old.circuit change.now.start.now }
    requires spread { IsShortRun (network_of follower.old.circuit)
        change.now.input.now change.now.start.now spread.now.steps }
    requires settle { IsShortRun (network_of follower.old.circuit)
        change.now.input.now change.now.start.now settle.now.steps }
    requires cycle { IsShortRun (network_of follower.old.circuit) change.now.input.now
        (end_of change.now.start.now settle.now.steps) cycle.now.steps }
    requires common { BeginAlike spread.now.steps settle.now.steps common }
    ensures races { AreRacesOf (network_of follower.old.circuit)
        change.now.input.now change.now.start.now
        spread.now.steps settle.now.steps cycle.now.steps
        result.spread result.settle result.cycle }
    ensures circuit { follower.new.circuit ≡ follower.old.circuit }
{
    follower.begin(change.input, change.start);
    let shared = races_before(follower, settle, 0, common);
    let spread = shared + last_races(follower, spread, common);
    let settle = shared + run_races(follower, settle, common);
    let cycle = cycle_races(follower, cycle);
    Races {
        spread,
        settle,
        cycle,
    }
}

// Counts the race states of the rest of a run, which begins in the current state with the step that has a number. The follower
// goes along it.
fn run_races(follower: &mut Follower, run: &Run, from: usize) -> u32
    requires from { from ≤ length run.now.steps }
    requires run { IsShortRun (network_of follower.old.circuit) follower.old.input
        follower.old.state (drop from run.now.steps) }
    ensures races { result
        ≡ race_count (network_of follower.old.circuit) follower.old.input
        (states_of follower.old.state (drop from run.now.steps)) }
    ensures few { result ≤ most_short_steps + 1 }
    ensures circuit { follower.new.circuit ≡ follower.old.circuit }
    ensures input { follower.new.input ≡ follower.old.input }
    ensures ends { follower.new.state ≡ end_of follower.old.state (drop from run.now.steps) }
{
    let before = races_before(follower, run, from, run.steps());
    before + race_here(follower)
}

// Counts the race states of the rest of a run, which begins in the current state and has at most one step. The follower comes
// back.
fn last_races(follower: &mut Follower, run: &Run, from: usize) -> u32
    requires few { length run.now.steps ≤ from + 1 }
    requires run { IsRun (network_of follower.old.circuit) follower.old.input follower.old.state
        (drop from run.now.steps) }
    ensures races { result
        ≡ race_count (network_of follower.old.circuit) follower.old.input
        (states_of follower.old.state (drop from run.now.steps)) }
    ensures few { result ≤ 2 }
    ensures back { follower.new ≡ follower.old }
{
    let here = race_here(follower);
    if run.steps() <= from {
        return here;
    }
    here + race_after(follower, run.step(from))
}

// 1 if a step leads to a race state, else 0. The follower comes back. Mostly a look at a few gates tells that two are unstable there.
fn race_after(follower: &mut Follower, flips: &[u32]) -> u32
    requires inside { All (IsVariable follower.old.circuit) flips.now }
    requires once { IsRepeatFree flips.now }
    ensures race { result
        ≡ (if is_race (network_of follower.old.circuit) follower.old.input
        (state_after flips.now follower.old.state) then 1 else 0) }
    ensures back { follower.new ≡ follower.old }
{
    if follower.sees_two_unstable_after(flips) {
        return 1;
    }
    follower.step(flips);
    let after = race_here(follower);
    // The same step again undoes it.
    follower.step(flips);
    after
}

// Counts the race states of a cycle from the current state, without its last one, which is the first again.
fn cycle_races(follower: &mut Follower, cycle: &Run) -> u32
    requires { IsShortRun (network_of follower.old.circuit) follower.old.input follower.old.state
        cycle.now.steps }
    ensures races { result
        ≡ race_count (network_of follower.old.circuit) follower.old.input
        (cycle_states follower.old.state cycle.now.steps) }
    ensures circuit { follower.new.circuit ≡ follower.old.circuit }
{
    if cycle.steps() == 0 {
        return race_here(follower);
    }
    races_before(follower, cycle, 0, cycle.steps())
}

// Counts the race states in which the steps of a run from one number to another begin, and makes these steps.
fn races_before(follower: &mut Follower, run: &Run, from: usize, to: usize) -> u32
    requires from { from ≤ to }
    requires to { to ≤ length run.now.steps }
    requires run { IsShortRun (network_of follower.old.circuit) follower.old.input
        follower.old.state (slice_range run.now.steps from to) }
    ensures races { result
        ≡ race_count (network_of follower.old.circuit) follower.old.input
        (states_before follower.old.state (slice_range run.now.steps from to)) }
    ensures few { result ≤ most_short_steps }
    ensures circuit { follower.new.circuit ≡ follower.old.circuit }
    ensures input { follower.new.input ≡ follower.old.input }
    ensures ends { follower.new.state
        ≡ end_of follower.old.state (slice_range run.now.steps from to) }
{
    let mut races = 0;
    for number in from..to {
        races += race_here(follower);
        follower.step(run.step(number));
    }
    races
}

// 1 if the current state is a race state, else 0.
fn race_here(follower: &Follower) -> u32
    ensures { result
        ≡ (if is_race (network_of follower.now.circuit) follower.now.input follower.now.state then 1
        else 0) }
{
    if follower.unstable_count() >= 2 { 1 } else { 0 }
}
