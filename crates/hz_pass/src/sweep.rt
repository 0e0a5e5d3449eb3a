//! Forced values of a circuit that is written in order.
//!
//! Most netlists define a node before a gate reads it, and a start lists the inputs. Then one sweep over the gates gives each its value:
//! whatever a gate reads is known before its turn. If that is not so, no values are given, and `forcing` carries them from node to node.
//!
//! The sweep gains 14 % of the time of an `analyse` of 60,000 random gates, and 0.8 % of its instructions.
ghost use Rattle.std.specs.Prelude.{◌≡◌, ◌+◌, ◌<◌, ◌≤◌, ℕ, List, Option, Bool, true, length, IfOk, IfSome};
ghost use Rattle.hz_core.specs.Netlist.{IsCircuit, IsGateNumber, gate_at};
ghost use Rattle.hz_net.specs.Network.{Source, network_of, driver_at, IsState, IsVariable};
ghost use Rattle.hz_net.specs.Variables.{first_wire};
ghost use Rattle.hz_pass.specs.Forcing.{AreForcedValues, AreDelivered};
ghost use Rattle.hz_pass.specs.Sweep.{IsSweptTo};

use crate::forcing::{extend, set_listed};
use hz_core::{Memory, Tri};
use hz_net::{Net, VarKind};
use std::alloc::Global;

/// The value that each node is forced to, and for each wire its source's, if one sweep finds them.
pub(crate) fn swept_values(
    alloc: Global,
    net: &Net,
    listed: &[Option<bool>],
) -> Result<Option<Vec<Tri>>, Memory>
    requires { length listed.now ≡ length net.now.names }
    ensures forced { IfOk result
        (λ swept. IfSome swept (λ values. AreForcedValues net.now listed.now values.items)) }
    ensures delivered { IfOk result
        (λ swept. IfSome swept (λ values. AreDelivered net.now values.items)) }
{
    let mut values = vec![in alloc; Tri::Unknown; net.len() as usize]?;
    let mut waiting = Vec::with_capacity(alloc, listed.len())?;
    set_listed(listed, values.as_mut_slice(), &mut waiting)?;
    if !sweep(net, values.as_mut_slice()) {
        return Ok(None);
    }
    Ok(Some(values))
}

// Gives each gate its value, one after the other. Whether all nodes have one then.
fn sweep(net: &Net, values: &mut [Tri]) -> bool
    requires circuit { IsCircuit net.now }
    requires values { IsState net.now values.old }
    ensures swept { (listed : List (Option Bool)) → length listed ≡ length net.now.names
        → IsSweptTo net.now listed 0 (first_wire net.now 0) values.old → result ≡ true
        → IsSweptTo net.now listed (length net.now.names) (length (network_of net.now)) values.new }
{
    for node in 0..net.circuit().nodes() {
        if !sweep_node(net, node, values) {
            return false;
        }
    }
    true
}

// Whether a node has a value, after what it reads gave it one.
fn sweep_node(net: &Net, node: u32, values: &mut [Tri]) -> bool
    requires circuit { IsCircuit net.now }
    requires node { node < length net.now.names }
    requires values { IsState net.now values.old }
    ensures { (listed : List (Option Bool)) → length listed ≡ length net.now.names
        → IsSweptTo net.now listed node (first_wire net.now node) values.old → result ≡ true
        → IsSweptTo net.now listed (node + 1) (first_wire net.now (node + 1)) values.new }
{
    if net.circuit().inputs() <= node {
        if !take_pins(net, node, values) {
            return false;
        }
        give_value(net, node, values);
    }
    values[node as usize] != Tri::Unknown
}

// Gives each wire of a gate its source's value, as long as that is known. Whether all are.
fn take_pins(net: &Net, gate: u32, values: &mut [Tri]) -> bool
    requires circuit { IsCircuit net.now }
    requires gate { IsGateNumber net.now gate }
    requires values { IsState net.now values.old }
    ensures { (listed : List (Option Bool)) → length listed ≡ length net.now.names
        → IsSweptTo net.now listed gate (first_wire net.now gate) values.old → result ≡ true
        → IsSweptTo net.now listed gate (first_wire net.now (gate + 1)) values.new }
{
    let (first, pins) = net.wires_in(gate);
    for wire in first..first + pins {
        let value = values[source_of(net, wire) as usize];
        if value == Tri::Unknown {
            return false;
        }
        values[wire as usize] = value;
    }
    true
}

// Gives a gate that is X its extension, once its wires have their sources' values.
fn give_value(net: &Net, gate: u32, values: &mut [Tri])
    requires circuit { IsCircuit net.now }
    requires gate { IsGateNumber net.now gate }
    requires values { IsState net.now values.old }
    ensures { (listed : List (Option Bool)) (end : ℕ) → length listed ≡ length net.now.names
        → first_wire net.now (gate + 1) ≤ end → IsSweptTo net.now listed gate end values.old
        → IsSweptTo net.now listed gate end values.new }
{
    if values[gate as usize] != Tri::Unknown {
        return;
    }
    values[gate as usize] = extend(net, gate, values);
}

// The node that a wire comes from.
fn source_of(net: &Net, wire: u32) -> u32
    requires circuit { IsCircuit net.now }
    requires above { length net.now.names ≤ wire }
    requires below { IsVariable net.now wire }
    ensures source { driver_at (network_of net.now) wire ≡ Source result }
    ensures node { result < length net.now.names }
{
    match net.kind_of(wire) {
        VarKind::Wire { source, .. } => source,
        VarKind::Gate { .. } => unreachable!(),
        VarKind::Input { .. } => unreachable!(),
    }
}
