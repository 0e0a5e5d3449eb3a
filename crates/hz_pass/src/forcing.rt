//! Values that are forced, carried from node to node.
//!
//! The idea. A worklist. A node that has got its value waits. When it is taken, its value goes to the cuts whose data node it
//! is and to the wires from it; and each gate at the end of such a wire, if it is X, is evaluated over its wires. If that gives
//! 0 or 1, the gate is set, and waits in its turn. Each set variable stays set, so the work ends after as many turns as there
//! are nodes, and the order of the worklist does not matter.
//!
//! What must stay true: `ForcedSoFar`. A node waits exactly once, after it was set; a wire has its source's value or is X; a
//! gate that is X has an extension that is X, unless one of its wires was just set. A listed value is never compared with what
//! forces the node: whether the start is stable is asked afterwards.
//!
//! What breaks if you add a way to force a node: it needs a case in `IsGiven`, a list of those who wait for it, and a field in
//! `ForcedSoFar` for what is still due, as cuts have. A value that is taken back breaks everything.
ghost use Rattle.std.specs.Prelude.{◌≡◌, ◌≢◌, ◌+◌, ◌<◌, ◌≤◌, ◌^◌, [], List, Option, Bool, All, length, replicate, IfOk, OnOk};
ghost use Rattle.hz_core.specs.declared.tri.Tri.TheVariants.{Unknown};
ghost use Rattle.hz_core.specs.Ternary.{unknown_count};
ghost use Rattle.hz_core.specs.Netlist.{IsCircuit, IsGateNumber};
ghost use Rattle.hz_net.specs.Network.{network_of, value_at, IsState, IsVariable};
ghost use Rattle.hz_net.specs.Variables.{fan_out_of};
ghost use Rattle.hz_net.specs.Reads.{IsWireInto};
ghost use Rattle.hz_pass.specs.CutLists.{IsDataOf};
ghost use Rattle.hz_pass.specs.Forcing.{HasListedValues, IsTaken, gate_extension, SetsNode, ForcedSoFar, AreForcedValues, AreDelivered, carrying, only_waiting};

use crate::cuts::{cuts_at, cuts_by_data};
use hz_core::{Memory, Tri};
use hz_net::{Net, VarKind};
use std::alloc::Global;

/// The value that each node is forced to, X if it is open, and for each wire its source's.
pub(crate) fn carried_values(
    alloc: Global,
    net: &Net,
    listed: &[Option<bool>],
) -> Result<Vec<Tri>, Memory>
    requires { length listed.now ≡ length net.now.names }
    ensures forced { IfOk result (λ values. AreForcedValues net.now listed.now values.items) }
    ensures delivered { IfOk result (λ values. AreDelivered net.now values.items) }
{
    let mut values = vec![in alloc; Tri::Unknown; net.len() as usize]?;
    let mut waiting = Vec::with_capacity(alloc, listed.len())?;
    let cuts = cuts_by_data(alloc, net.circuit(), listed)?;
    set_listed(listed, values.as_mut_slice(), &mut waiting)?;
    while let Some(node) = waiting.pop() {
        let taking = cuts_at(cuts.as_slice(), node);
        carry(net, taking, node, values.as_mut_slice(), &mut waiting)?;
    }
    Ok(values)
}

// Sets the listed values, and lets their nodes wait.
pub(crate) fn set_listed(
    listed: &[Option<bool>],
    values: &mut [Tri],
    waiting: &mut Vec<u32>,
) -> Result<(), Memory>
    requires listed { length listed.now < 2 ^ 32 }
    requires long { length listed.now ≤ length values.old }
    requires values { values.old ≡ replicate (length values.old) Unknown }
    requires waiting { waiting.old.items ≡ [] }
    ensures { OnOk result (HasListedValues listed.now values.new waiting.new.items) }
{
    for node in 0..listed.len() {
        if let Some(bit) = listed[node] {
            values[node] = Tri::of(bit);
            waiting.push(node as u32)?;
        }
    }
    Ok(())
}

// Carries the value of a node on: to the cuts whose data node it is, and along its fan-out.
fn carry(
    net: &Net,
    cuts: &[u32],
    node: u32,
    values: &mut [Tri],
    waiting: &mut Vec<u32>,
) -> Result<(), Memory>
    requires circuit { IsCircuit net.now }
    requires cuts { All (IsDataOf net.now node) cuts.now }
    requires node { node < length net.now.names }
    requires values { IsState net.now values.old }
    requires known { value_at values.old node ≢ Unknown }
    ensures forced { (listed : List (Option Bool)) → length listed ≡ length net.now.names
        → ForcedSoFar net.now listed values.old
        (carrying waiting.old.items (fan_out_of net.now node) cuts.now)
        → OnOk result (ForcedSoFar net.now listed values.new (only_waiting waiting.new.items)) }
    ensures fewer { OnOk result (unknown_count values.new + length waiting.new.items
        ≤ unknown_count values.old + length waiting.old.items) }
{
    take_data(cuts, values[node as usize], values, waiting)?;
    deliver(net, node, values, waiting)
}

// Gives the value of a data node to its cuts that are X, and lets them wait.
fn take_data(
    cuts: &[u32],
    value: Tri,
    values: &mut [Tri],
    waiting: &mut Vec<u32>,
) -> Result<(), Memory>
    requires inside { All (λ cut. cut < length values.old) cuts.now }
    requires known { value ≢ Unknown }
    ensures { OnOk result (IsTaken cuts.now value values.old values.new
        waiting.old.items waiting.new.items (length cuts.now)) }
{
    for cut in cuts {
        set_cut(*cut, value, values, waiting)?;
    }
    Ok(())
}

// Sets a cut that is X to a known value, and lets it wait.
fn set_cut(cut: u32, value: Tri, values: &mut [Tri], waiting: &mut Vec<u32>) -> Result<(), Memory>
    requires inside { cut < length values.old }
    requires known { value ≢ Unknown }
    ensures { OnOk result (SetsNode (value_at values.old cut) value cut
        values.old values.new waiting.old.items waiting.new.items) }
{
    if values[cut as usize] != Tri::Unknown {
        return Ok(());
    }
    values[cut as usize] = value;
    waiting.push(cut)?;
    Ok(())
}

// Carries the value of a node along its fan-out, and sets the gates that this forces.
fn deliver(net: &Net, node: u32, values: &mut [Tri], waiting: &mut Vec<u32>) -> Result<(), Memory>
    requires circuit { IsCircuit net.now }
    requires node { node < length net.now.names }
    requires values { IsState net.now values.old }
    requires known { value_at values.old node ≢ Unknown }
    ensures forced { (listed : List (Option Bool)) → length listed ≡ length net.now.names
        → ForcedSoFar net.now listed values.old
        (carrying waiting.old.items (fan_out_of net.now node) [])
        → OnOk result (ForcedSoFar net.now listed values.new (only_waiting waiting.new.items)) }
    ensures fewer { OnOk result (unknown_count values.new + length waiting.new.items
        ≤ unknown_count values.old + length waiting.old.items) }
{
    let value = values[node as usize];
    for wire in net.fan_out(node) {
        values[*wire as usize] = value;
        set_gate(net, gate_of(net, *wire), values, waiting)?;
    }
    Ok(())
}

// The gate that a wire goes into.
fn gate_of(net: &Net, wire: u32) -> u32
    requires circuit { IsCircuit net.now }
    requires above { length net.now.names ≤ wire }
    requires below { IsVariable net.now wire }
    ensures gate { IsGateNumber net.now result }
    ensures into { IsWireInto (network_of net.now) result wire }
{
    match net.kind_of(wire) {
        VarKind::Wire { gate, .. } => gate,
        VarKind::Gate { .. } => unreachable!(),
        VarKind::Input { .. } => unreachable!(),
    }
}

// Sets a gate that is X to its extension, and lets it wait, if that is known.
fn set_gate(net: &Net, gate: u32, values: &mut [Tri], waiting: &mut Vec<u32>) -> Result<(), Memory>
    requires circuit { IsCircuit net.now }
    requires gate { IsGateNumber net.now gate }
    requires values { IsState net.now values.old }
    ensures { OnOk result (SetsNode (value_at values.old gate)
        (gate_extension net.now values.old gate) gate
        values.old values.new waiting.old.items waiting.new.items) }
{
    if values[gate as usize] != Tri::Unknown {
        return Ok(());
    }
    let extended = extend(net, gate, values);
    if extended == Tri::Unknown {
        return Ok(());
    }
    values[gate as usize] = extended;
    waiting.push(gate)?;
    Ok(())
}

// The ternary extension of a gate's function on its wires.
pub(crate) fn extend(net: &Net, gate: u32, values: &[Tri]) -> Tri
    requires gate { IsGateNumber net.now gate }
    requires values { IsState net.now values.now }
    ensures { result ≡ gate_extension net.now values.now gate }
{
    let (first, pins) = net.wires_in(gate);
    let kind = net.circuit().kind(gate);
    kind.eval3(&values[first as usize..(first + pins) as usize])
}
