//! A pass over the unsettled gates.
ghost use Rattle.std.specs.Prelude.{◌≡◌, ℕ, ◌+◌, ◌<◌, ◌≤◌, Bool, true, ◌&&◌, List, [], length, map, not, IsTrue};
ghost use Rattle.hz_core.specs.Ternary.{is_unknown};
ghost use Rattle.hz_core.specs.Netlist.{IsCircuit, IsGateNumber};
ghost use Rattle.hz_net.specs.Network.{network_of, IsState, IsVariable};
ghost use Rattle.hz_reach.specs.Order.{IsInKeyOrder};
ghost use Rattle.hz_reach.specs.Room.{Spends};
ghost use Rattle.hz_reach.specs.Given.{IsScratchFor};
ghost use Rattle.hz_reach.specs.Turn.{IsTurn, CanTurn, HasRoomForTurn};
ghost use Rattle.hz_reach.specs.Turns.{has_turn_in, unsettled_pins};
ghost use Rattle.hz_reach.specs.Pass.{AreFixedAndRanked, MayBegin, HasRoom, IsPassMade};

use crate::{Scratch, is_gate, take_turn};
use hz_core::{MAX_PINS, Tri};
use hz_gmw::Run;
use hz_net::Net;

// Each unsettled gate has its turn, by rank and then by number, in which its unsettled pins are free and the wires of its fan-out
// go along. The variables are sorted by rank, and stay so.
pub(crate) fn make_pass(net: &Net, rank: &[u32], b: &[Tri], scratch: &mut Scratch, run: &mut Run)
    requires given { AreFixedAndRanked (network_of net.now) rank.now b.now }
    requires begins { MayBegin (network_of net.now) rank.now b.now scratch.old.state }
    requires scratch { IsScratchFor net.now scratch.old }
    requires sorted { IsInKeyOrder rank.now scratch.old.sorted }
    requires room { HasRoom (network_of net.now) rank.now b.now scratch.old.state run.old }
    ensures pass { IsPassMade (network_of net.now) rank.now b.now
        scratch.old.state run.old.steps run.new.steps scratch.new.state }
    ensures marked { scratch.new.marked ≡ [] }
    ensures sorted { IsInKeyOrder rank.now scratch.new.sorted }
    ensures room { Spends run.old run.new }
{
    net.keeps_shape();
    for place in 0..scratch.sorted().len() {
        let var = scratch.sorted()[place];
        if has_turn(net, b, var) {
            turn_unsettled(net, b, var, scratch, run);
        }
    }
}

// Whether a variable is an unsettled gate. Most are settled.
fn has_turn(net: &Net, b: &[Tri], var: u32) -> bool
    requires b { IsState net.now b.now }
    requires var { IsVariable net.now var }
    ensures turn { result ≡ has_turn_in (network_of net.now) b.now var }
    ensures gate { IsTrue result → IsGateNumber net.now var }
{
    if !is_unsettled(b[var as usize]) {
        return false;
    }
    is_gate(net, var)
}

// Whether a value is X.
fn is_unsettled(value: Tri) -> bool
    ensures { result ≡ is_unknown value }
{
    match value {
        Tri::Zero | Tri::One => false,
        Tri::Unknown => true,
    }
}

// A gate's turn, in which its unsettled pins are free. The wires of its fan-out go along.
fn turn_unsettled(net: &Net, b: &[Tri], gate: u32, scratch: &mut Scratch, run: &mut Run)
    requires circuit { IsCircuit net.now }
    requires b { IsState net.now b.now }
    requires gate { IsGateNumber net.now gate }
    requires possible { CanTurn net.now gate (unsettled_pins net.now b.now gate) scratch.old.state }
    requires scratch { IsScratchFor net.now scratch.old }
    requires room { HasRoomForTurn net.now gate (unsettled_pins net.now b.now gate) true
        scratch.old.state run.old }
    ensures turn { IsTurn net.now gate (unsettled_pins net.now b.now gate) true
        scratch.old.state scratch.new.state run.old.steps run.new.steps }
    ensures marked { scratch.new.marked ≡ [] }
    ensures sorted { scratch.new.sorted ≡ scratch.old.sorted }
    ensures room { Spends run.old run.new }
{
    let (first, pins) = net.wires_in(gate);
    let wires = first as usize..(first + pins) as usize;
    let mut room = [false; MAX_PINS];
    let free = &mut room[..pins as usize];
    list_unsettled(&b[wires], free);
    take_turn(net, gate, free, true, scratch, run);
}

// Which pins are unsettled, by their wires' values.
fn list_unsettled(values: &[Tri], free: &mut [bool])
    requires { length free.old ≡ length values.now }
    ensures { free.new ≡ map is_unknown values.now }
{
    for (pin, value) in values.iter().enumerate() {
        free[pin] = is_unsettled(*value);
    }
}
