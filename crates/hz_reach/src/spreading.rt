//! The spread run.
//!
//! The idea. Algorithm A makes variables X round by round, and the rank of a variable is its round. A gate becomes X by wires
//! that became X in earlier rounds, each after its source. When the gate has its turn these sources have had theirs, so the
//! wires are unstable and may change. The canonical pattern says which of them change, in one step, to give the gate the
//! complement of its value; then the gate is unstable, and changes in the next step.
//!
//! What must stay true: turns come by rank; only unstable variables are marked; between two steps none is marked; no variable
//! changes twice, so room for one flip and one step for each variable is enough.
//!
//! What breaks if you add a change: a wire before its source, or a gate before its wires, is stable then, and the step is
//! none. A second change of a variable falsifies `IsSpreadRun`, and the room. A new kind of gate needs its canonical pattern.
//!
//! To pass over sixteen wires that are not X at once gains 3.2 % of a script's instructions (1,000 changes of 2,000 variables).
ghost use Rattle.std.specs.Prelude.{◌≡◌, ℕ, ◌+◌, ◌-◌, ◌<◌, ◌≤◌, ◌^◌, Bool, true, false, not, ◌&&◌, List, [], ◌∷◌, ◌++◌, length, IsTrue, MatchBool, if◌then◌else◌};
ghost use Rattle.hz_core.specs.Ternary.{is_unknown};
ghost use Rattle.hz_core.specs.Netlist.{IsCircuit, IsGateNumber};
ghost use Rattle.hz_core.specs.Pattern.{differs};
ghost use Rattle.hz_net.specs.Network.{network_of, value_at, IsState, AreByVariable, IsInput};
ghost use Rattle.hz_gmw.specs.Runs.{end_of};
ghost use Rattle.hz_lists.specs.Listed.{is_listed};
ghost use Rattle.hz_reach.specs.FilteredRange.{filtered_range};
ghost use Rattle.hz_reach.specs.Order.{IsInKeyOrder};
ghost use Rattle.hz_reach.specs.Room.{Spends, with_step_if_any, HasRoomForStep};
ghost use Rattle.hz_reach.specs.Given.{AreResultsOfA, IsScratchFor, IsEmptyRun};
ghost use Rattle.hz_reach.specs.Spread.{IsSpreadRun, IsSparingRun};
ghost use Rattle.hz_reach.specs.Turn.{changed_inputs, free_pins, earlier_pins, is_unchanged, IsTurn, unchanged_wires, CanTurn, HasRoomForTurn};

use crate::turn::{is_gate, take_turn};
use crate::{Change, Scratch};
use hz_core::{MAX_PINS, Tri};
use hz_gmw::Run;
use hz_net::Net;

/// The spread run: a run from a start that is stable under its own inputs, in which each variable that Algorithm A makes
/// X changes once, and no other variable changes. So both values of each X are reached.
///
/// First all inputs change that differ from the new input. Then the gates have their turns, by rank and then by number:
/// the wires that a gate needs change, and then the gate alone. Of its wires those are free that become X before it, and
/// the canonical pattern says which of them change. Last come the wires that have not changed; `keep_unused` leaves them
/// out. A step that would be empty is not made.
///
/// `a` and `rank` are what Algorithm A gives for this start and input. The last state stands in `scratch` afterwards, and
/// its variables are sorted by rank. It takes no memory and cannot fail.
pub fn spread_run(
    net: &Net,
    start: &[bool],
    input: &[bool],
    a: &[Tri],
    rank: &[u32],
    keep_unused: bool,
    scratch: &mut Scratch,
    run: &mut Run,
)
    requires change { AreResultsOfA net.now start.now input.now a.now rank.now }
    requires scratch { IsScratchFor net.now scratch.old }
    requires run { IsEmptyRun (length (network_of net.now)) run.old }
    ensures run { MatchBool keep_unused
        (IsSparingRun (network_of net.now) input.now start.now a.now rank.now run.new.steps)
        (IsSpreadRun (network_of net.now) input.now start.now a.now run.new.steps) }
    ensures state { scratch.new.state ≡ end_of start.now run.new.steps }
    ensures marked { scratch.new.marked ≡ [] }
    ensures sorted { IsInKeyOrder rank.now scratch.new.sorted }
    ensures room { Spends run.old run.new }
{
    scratch.sort(rank);
    let change = Change { net, start, input };
    spread_in_order(&change, a, rank, keep_unused, scratch, run);
}

/// The spread run, if the variables of `scratch` are sorted by rank already. They stay so.
pub fn spread_in_order(
    change: &Change,
    a: &[Tri],
    rank: &[u32],
    keep_unused: bool,
    scratch: &mut Scratch,
    run: &mut Run,
)
    requires change { AreResultsOfA change.now.net.now change.now.start.now change.now.input.now
        a.now rank.now }
    requires scratch { IsScratchFor change.now.net.now scratch.old }
    requires sorted { IsInKeyOrder rank.now scratch.old.sorted }
    requires run { IsEmptyRun (length (network_of change.now.net.now)) run.old }
    ensures run { MatchBool keep_unused
        (IsSparingRun (network_of change.now.net.now) change.now.input.now change.now.start.now
        a.now rank.now run.new.steps)
        (IsSpreadRun (network_of change.now.net.now) change.now.input.now change.now.start.now
        a.now run.new.steps) }
    ensures state { scratch.new.state ≡ end_of change.now.start.now run.new.steps }
    ensures marked { scratch.new.marked ≡ [] }
    ensures sorted { IsInKeyOrder rank.now scratch.new.sorted }
    ensures room { Spends run.old run.new }
{
    change.net.keeps_shape();
    sparing_in_order(change, a, rank, scratch, run);
    if !keep_unused {
        mark_unchanged(change.net, change.start, a, scratch);
        scratch.step(run);
    }
}

/// The spread run without the wires that it does not need, if the variables of `scratch` are sorted by rank already. They stay
/// so. With the wires that have not changed as one more step, it is the whole spread run: [`add_unused`] adds them.
pub fn sparing_in_order(
    change: &Change,
    a: &[Tri],
    rank: &[u32],
    scratch: &mut Scratch,
    run: &mut Run,
)
    requires change { AreResultsOfA change.now.net.now change.now.start.now change.now.input.now
        a.now rank.now }
    requires scratch { IsScratchFor change.now.net.now scratch.old }
    requires sorted { IsInKeyOrder rank.now scratch.old.sorted }
    requires run { IsEmptyRun (length (network_of change.now.net.now)) run.old }
    ensures sparing { IsSparingRun (network_of change.now.net.now)
        change.now.input.now change.now.start.now a.now rank.now run.new.steps }
    ensures whole { IsSpreadRun (network_of change.now.net.now)
        change.now.input.now change.now.start.now a.now
        (with_step_if_any run.new.steps
        (unchanged_wires change.now.net.now a.now change.now.start.now scratch.new.state)) }
    ensures room_for_unused { HasRoomForStep
        (unchanged_wires change.now.net.now a.now change.now.start.now scratch.new.state) run.new }
    ensures state { scratch.new.state ≡ end_of change.now.start.now run.new.steps }
    ensures marked { scratch.new.marked ≡ [] }
    ensures sorted { IsInKeyOrder rank.now scratch.new.sorted }
    ensures room { Spends run.old run.new }
{
    change.net.keeps_shape();
    scratch.begin(change.start);
    mark_inputs(change.net, change.start, change.input, scratch);
    scratch.step(run);
    for place in 0..scratch.sorted().len() {
        let var = scratch.sorted()[place];
        if is_gate(change.net, var) {
            turn_by_rank(change.net, rank, var, scratch, run);
        }
    }
}

/// Adds the last step of the spread run to the run of [`sparing_in_order`]: the wires that are X in the result of Algorithm A and
/// have not changed. The scratch stays as it is, in the state before that step.
pub fn add_unused(net: &Net, start: &[bool], a: &[Tri], scratch: &mut Scratch, run: &mut Run)
    requires start { IsState net.now start.now }
    requires a { IsState net.now a.now }
    requires scratch { IsScratchFor net.now scratch.old }
    requires room { HasRoomForStep
        (unchanged_wires net.now a.now start.now scratch.old.state) run.old }
    ensures steps { run.new.steps ≡
        with_step_if_any run.old.steps (unchanged_wires net.now a.now start.now scratch.old.state) }
    ensures room { Spends run.old run.new }
    ensures same { scratch.new ≡ scratch.old }
{
    net.keeps_shape();
    mark_unchanged(net, start, a, scratch);
    scratch.list_step(run);
}

// Marks the inputs that differ from the new input.
fn mark_inputs(net: &Net, start: &[bool], input: &[bool], scratch: &mut Scratch)
    requires circuit { IsCircuit net.now }
    requires start { IsState net.now start.now }
    requires input { IsInput net.now input.now }
    requires scratch { IsScratchFor net.now scratch.old }
    ensures marked { scratch.new.marked ≡ changed_inputs net.now start.now input.now }
    ensures state { scratch.new.state ≡ scratch.old.state }
    ensures sorted { scratch.new.sorted ≡ scratch.old.sorted }
{
    for var in 0..net.circuit().inputs() {
        scratch.mark_if(start[var as usize] != input[var as usize], var);
    }
}

// A gate's turn, in which those of its wires are free that become X before it. It changes alone.
fn turn_by_rank(net: &Net, rank: &[u32], gate: u32, scratch: &mut Scratch, run: &mut Run)
    requires circuit { IsCircuit net.now }
    requires rank { AreByVariable net.now rank.now }
    requires gate { IsGateNumber net.now gate }
    requires possible { CanTurn net.now gate (earlier_pins net.now rank.now gate)
        scratch.old.state }
    requires scratch { IsScratchFor net.now scratch.old }
    requires room { HasRoomForTurn net.now gate (earlier_pins net.now rank.now gate) false
        scratch.old.state run.old }
    ensures turn { IsTurn net.now gate (earlier_pins net.now rank.now gate) false
        scratch.old.state scratch.new.state run.old.steps run.new.steps }
    ensures marked { scratch.new.marked ≡ [] }
    ensures sorted { scratch.new.sorted ≡ scratch.old.sorted }
    ensures room { Spends run.old run.new }
{
    let (first, pins) = net.wires_in(gate);
    let wires = first as usize..(first + pins) as usize;
    let mut room = [false; MAX_PINS];
    let free = &mut room[..pins as usize];
    list_free(rank[gate as usize], &rank[wires], free);
    take_turn(net, gate, free, false, scratch, run);
}

// Which pins are free, by the ranks of their wires and the gate's own rank.
fn list_free(own: u32, ranks: &[u32], free: &mut [bool])
    requires { length free.old ≡ length ranks.now }
    ensures { free.new ≡ free_pins own ranks.now }
{
    for (pin, rank) in ranks.iter().enumerate() {
        free[pin] = *rank != 0 && *rank < own;
    }
}

// Marks the wires that are X in the result of Algorithm A and have not changed.
fn mark_unchanged(net: &Net, start: &[bool], a: &[Tri], scratch: &mut Scratch)
    requires circuit { IsCircuit net.now }
    requires start { IsState net.now start.now }
    requires a { IsState net.now a.now }
    requires scratch { IsScratchFor net.now scratch.old }
    ensures marked { scratch.new.marked ≡
        unchanged_wires net.now a.now start.now scratch.old.state }
    ensures state { scratch.new.state ≡ scratch.old.state }
    ensures sorted { scratch.new.sorted ≡ scratch.old.sorted }
    ensures by_round { scratch.new.by_round ≡ scratch.old.by_round }
{
    let nodes = net.circuit().nodes();
    let blocks = (net.len() - nodes) / 16;
    for block in 0..blocks {
        mark_sixteen(start, a, (nodes + block * 16) as usize, scratch);
    }
    mark_range(
        start,
        a,
        (nodes + blocks * 16) as usize,
        net.len() as usize,
        scratch,
    );
}

// Marks those of sixteen variables that are X in the result of Algorithm A and have not changed. Most are not X.
fn mark_sixteen(start: &[bool], a: &[Tri], first: usize, scratch: &mut Scratch)
    requires few { first + 16 < 2 ^ 32 }
    requires inside { first + 16 ≤ length scratch.old.state }
    requires start { length start.now ≡ length scratch.old.state }
    requires a { length a.now ≡ length scratch.old.state }
    requires ascending { (i : ℕ) → IsTrue (is_listed scratch.old.marked i) → i < first }
    ensures marked { scratch.new.marked ≡ scratch.old.marked
        ++ filtered_range (is_unchanged a.now start.now scratch.old.state) first (first + 16 - first) }
    ensures state { scratch.new.state ≡ scratch.old.state }
    ensures sorted { scratch.new.sorted ≡ scratch.old.sorted }
    ensures by_round { scratch.new.by_round ≡ scratch.old.by_round }
{
    if are_known(a, first) {
        return;
    }
    for place in 0..16 {
        mark_one(start, a, first + place, scratch);
    }
}

// Whether sixteen values are 0 or 1. It has no branch between two of them.
fn are_known(values: &[Tri], first: usize) -> bool
    requires { first + 16 ≤ length values.now }
    ensures { IsTrue result → (i : ℕ) → i < 16
        → is_unknown (value_at values.now (first + i)) ≡ false }
{
    let mut known = true;
    for place in 0..16 {
        known &= values[first + place] != Tri::Unknown;
    }
    known
}

// Marks those of the variables from one number on and below another that are X in the result of Algorithm A and have not changed.
fn mark_range(start: &[bool], a: &[Tri], from: usize, below: usize, scratch: &mut Scratch)
    requires few { below < 2 ^ 32 }
    requires ordered { from ≤ below }
    requires inside { below ≤ length scratch.old.state }
    requires start { length start.now ≡ length scratch.old.state }
    requires a { length a.now ≡ length scratch.old.state }
    requires ascending { (i : ℕ) → IsTrue (is_listed scratch.old.marked i) → i < from }
    ensures marked { scratch.new.marked ≡ scratch.old.marked
        ++ filtered_range (is_unchanged a.now start.now scratch.old.state) from (below - from) }
    ensures state { scratch.new.state ≡ scratch.old.state }
    ensures sorted { scratch.new.sorted ≡ scratch.old.sorted }
    ensures by_round { scratch.new.by_round ≡ scratch.old.by_round }
{
    for var in from..below {
        mark_one(start, a, var, scratch);
    }
}

// Marks a variable if it is X in the result of Algorithm A and has not changed.
fn mark_one(start: &[bool], a: &[Tri], var: usize, scratch: &mut Scratch)
    requires few { var < 2 ^ 32 }
    requires inside { var < length scratch.old.state }
    requires start { length start.now ≡ length scratch.old.state }
    requires a { length a.now ≡ length scratch.old.state }
    requires ascending { (i : ℕ) → IsTrue (is_listed scratch.old.marked i) → i < var }
    ensures marked { scratch.new.marked ≡ scratch.old.marked
        ++ (if is_unchanged a.now start.now scratch.old.state var then var ∷ [] else []) }
    ensures state { scratch.new.state ≡ scratch.old.state }
    ensures sorted { scratch.new.sorted ≡ scratch.old.sorted }
    ensures by_round { scratch.new.by_round ≡ scratch.old.by_round }
{
    let now = scratch.state()[var];
    let changes = has_yet_to_change(a[var], start[var], now);
    scratch.mark_if(changes, var as u32);
}

// A variable is X in the result of Algorithm A and has not changed.
fn has_yet_to_change(value: Tri, start: bool, now: bool) -> bool
    ensures { result ≡ (is_unknown value && not (differs start now)) }
{
    (value == Tri::Unknown) & (start == now)
}
