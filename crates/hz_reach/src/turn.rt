//! A gate's turn.
//!
//! The idea. Given which of a gate's pins are free, two steps turn the gate: first those of its wires change that differ from the
//! canonical pattern which gives it the complement of its bit, and then the gate changes, alone or along with the wires of its
//! fan-out that differ from it.
//!
//! What must stay true: each free pin differs from its source, else its wire is stable and the first step is none. The gate is
//! unstable only after its wires, so the two can't be one step.
ghost use Rattle.std.specs.Prelude.{◌≡◌, ℕ, ◌+◌, ◌<◌, ◌≤◌, Bool, true, IsTrue, not, List, [], ◌∷◌, ◌++◌, length};
ghost use Rattle.std.specs.List.{slice_range};
ghost use Rattle.hz_core.specs.Netlist.{IsCircuit, IsGateNumber, gate_at};
ghost use Rattle.hz_core.specs.Limits.{most_variables};
ghost use Rattle.hz_net.specs.Network.{network_of, IsVariable};
ghost use Rattle.hz_gmw.specs.Runs.{state_after};
ghost use Rattle.hz_reach.specs.Given.{IsScratchFor};
ghost use Rattle.hz_reach.specs.Room.{Spends, HasRoomFor, with_step_if_any};
ghost use Rattle.hz_reach.specs.Turn.{is_gate_in, changed_wires, AreTurnWires, turn_flips, IsTurn, CanTurn, HasRoomForTurn};

use crate::Scratch;
use hz_core::MAX_PINS;
use hz_gmw::Run;
use hz_net::Net;

/// Whether a variable is a gate.
pub fn is_gate(net: &Net, var: u32) -> bool
    requires { IsVariable net.now var }
    ensures gate { result ≡ is_gate_in (network_of net.now) var }
    ensures number { IsTrue result → IsGateNumber net.now var }
{
    let circuit = net.circuit();
    if var < circuit.inputs() {
        return false;
    }
    var < circuit.nodes()
}

/// A gate's turn, given which of its pins are free: the wires change that set its pattern, and then the gate, along with the wires
/// of its fan-out that differ from it if `with_fan_out` is set. A step that would be empty is not made.
pub fn take_turn(
    net: &Net,
    gate: u32,
    free: &[bool],
    with_fan_out: bool,
    scratch: &mut Scratch,
    run: &mut Run,
)
    requires circuit { IsCircuit net.now }
    requires gate { IsGateNumber net.now gate }
    requires free { length free.now ≡ length (gate_at net.now gate).sources }
    requires possible { CanTurn net.now gate free.now scratch.old.state }
    requires scratch { IsScratchFor net.now scratch.old }
    requires room { HasRoomForTurn net.now gate free.now with_fan_out scratch.old.state run.old }
    ensures turn { IsTurn net.now gate free.now with_fan_out
        scratch.old.state scratch.new.state run.old.steps run.new.steps }
    ensures marked { scratch.new.marked ≡ [] }
    ensures sorted { scratch.new.sorted ≡ scratch.old.sorted }
    ensures room { Spends run.old run.new }
{
    mark_pattern(net, gate, free, scratch);
    scratch.step(run);
    turn_gate(net, gate, with_fan_out, scratch, run);
}

// Marks the wires that differ from the pattern which turns a gate.
fn mark_pattern(net: &Net, gate: u32, free: &[bool], scratch: &mut Scratch)
    requires circuit { IsCircuit net.now }
    requires gate { IsGateNumber net.now gate }
    requires free { length free.now ≡ length (gate_at net.now gate).sources }
    requires possible { CanTurn net.now gate free.now scratch.old.state }
    requires scratch { IsScratchFor net.now scratch.old }
    ensures marked { AreTurnWires net.now gate free.now scratch.old.state scratch.new.marked }
    ensures state { scratch.new.state ≡ scratch.old.state }
    ensures sorted { scratch.new.sorted ≡ scratch.old.sorted }
{
    let kind = net.circuit().kind(gate);
    let (first, pins) = net.wires_in(gate);
    let mut room = [false; MAX_PINS];
    let pattern = &mut room[..free.len()];
    kind.choose(
        &scratch.state()[first as usize..(first + pins) as usize],
        free,
        !scratch.state()[gate as usize],
        pattern,
    );
    mark_changed(first, pattern, scratch);
}

// Marks, of the wires from a first one on, those whose bit differs from a pattern's bit.
fn mark_changed(first: u32, pattern: &[bool], scratch: &mut Scratch)
    requires inside { first + length pattern.now ≤ length scratch.old.state }
    requires few { length scratch.old.state ≤ most_variables }
    requires none_marked { scratch.old.marked ≡ [] }
    ensures marked { scratch.new.marked ≡
        changed_wires first
        (slice_range scratch.old.state first (first + length pattern.now)) pattern.now }
    ensures state { scratch.new.state ≡ scratch.old.state }
    ensures sorted { scratch.new.sorted ≡ scratch.old.sorted }
{
    for pin in 0..pattern.len() {
        let wire = first + pin as u32;
        let now = scratch.state()[wire as usize];
        scratch.mark_if(now != pattern[pin], wire);
    }
}

// A gate changes, alone or along with the wires of its fan-out that differ from it.
fn turn_gate(net: &Net, gate: u32, with_fan_out: bool, scratch: &mut Scratch, run: &mut Run)
    requires circuit { IsCircuit net.now }
    requires gate { IsGateNumber net.now gate }
    requires scratch { IsScratchFor net.now scratch.old }
    requires room { HasRoomFor
        (length (turn_flips net.now gate with_fan_out scratch.old.state)) run.old }
    ensures state { scratch.new.state
        ≡ state_after (turn_flips net.now gate with_fan_out scratch.old.state) scratch.old.state }
    ensures steps { run.new.steps
        ≡ with_step_if_any run.old.steps (turn_flips net.now gate with_fan_out scratch.old.state) }
    ensures room { Spends run.old run.new }
    ensures marked { scratch.new.marked ≡ [] }
    ensures sorted { scratch.new.sorted ≡ scratch.old.sorted }
{
    if !with_fan_out {
        scratch.step_alone(gate, run);
        return;
    }
    mark_with_fan_out(net, gate, scratch);
    scratch.step(run);
}

// Marks a gate, and the wires of its fan-out that differ from it.
fn mark_with_fan_out(net: &Net, node: u32, scratch: &mut Scratch)
    requires circuit { IsCircuit net.now }
    requires gate { IsGateNumber net.now node }
    requires scratch { IsScratchFor net.now scratch.old }
    ensures marked { scratch.new.marked ≡ turn_flips net.now node true scratch.old.state }
    ensures state { scratch.new.state ≡ scratch.old.state }
    ensures sorted { scratch.new.sorted ≡ scratch.old.sorted }
{
    let now = scratch.state()[node as usize];
    scratch.mark(node);
    for wire in net.fan_out(node) {
        let own = scratch.state()[*wire as usize];
        scratch.mark_if(own != now, *wire);
    }
}
