//! The complete network of a circuit.
ghost use Rattle.std.specs.Prelude.{◌≡◌, ◌+◌, ◌<◌, ◌≤◌, ◌↔◌, length, slice_get, Some, All, IfOk, IsTrue};
ghost use Rattle.hz_core.specs.Netlist.{IsCircuit, IsWhole, IsGateNumber, variable_count, gate_at};
ghost use Rattle.hz_net.specs.Network.{network_of, driver_at, bit_at, excitation, excitation3, IsStable, IsState, IsInput, IsVariable};
ghost use Rattle.hz_net.specs.Variables.{variable_kinds, first_wire, fan_out_of, expansion_of};
ghost use Rattle.hz_net.specs.Reads.{readers_of};
ghost use Rattle.hz_net.specs.Entries.{driver_of, entry_kind, IsEntryAt};
ghost use Rattle.hz_core.specs.Limits.{most_variables};

use crate::VarKind;
use crate::entry::{Entry, Parts};
use crate::fan_out::{FanOut, list_fan_out};
use hz_core::{Circuit, Memory, Tri};
use hz_lists::{Steps, part};
use std::alloc::Global;
use std::marker::Model;
use std::slice;
use std::sync::ledger::Ledger;

/// The complete network of a circuit (Brzozowski and Seger): a variable for each input, each gate and each wire, where a wire
/// is a pin of a gate.
///
/// Variables are numbered from 0: inputs, then gates, then wires by gate and pin. A node has the same number as in the
/// circuit. The wires of a gate are neighbours.
#[derive(Debug, Drop)]
pub struct Net {
    circuit: Circuit,
    parts: Parts,
    fan_out: FanOut,
}

impl Model for Net {
    ghost use Rattle.hz_core.specs.Netlist.{Netlist};

    ghost Value = { Netlist };

    ghost use Rattle.hz_net.specs.Inside.{HoldsNetwork};

    ghost view = { λ net. net.circuit };

    ghost invariant = { HoldsNetwork };
}

impl Net {
    /// The network of a circuit in which each gate has a pin.
    pub fn build(alloc: Global, circuit: Circuit) -> Result<Net, Memory>
        requires { IsWhole circuit }
        ensures ok { IfOk result (λ net. net ≡ circuit) }
    {
        let parts = Parts::of(alloc, &circuit)?;
        let fan_out = list_fan_out(alloc, circuit.nodes(), parts.comes.as_slice())?;
        Ok(Net {
            circuit,
            parts,
            fan_out,
        })
    }

    /// The law that a network keeps the shape of its circuit: each gate has a pin and reads nodes, and there are no more variables
    /// than a circuit may have.
    pub fn keeps_shape(&self)
        ensures circuit { IsCircuit self.now }
        ensures whole { IsWhole self.now }
        ensures bound { length (network_of self.now) ≤ most_variables }
    {
        let _variables = self.len();
    }

    /// The circuit that the network was built from.
    pub fn circuit(&self) -> &Circuit
        ensures same { result.now ≡ self.now }
        ensures circuit { IsCircuit self.now }
        ensures whole { IsWhole self.now }
    {
        &self.circuit
    }

    /// The number of variables.
    pub fn len(&self) -> u32
        ensures len { result ≡ length (network_of self.now) }
        ensures variables { result ≡ variable_count self.now }
        ensures bound { result ≤ most_variables }
        ensures circuit { IsCircuit self.now }
        ensures whole { IsWhole self.now }
    {
        self.circuit.variables()
    }

    /// What a variable is.
    pub fn kind_of(&self, var: u32) -> VarKind
        requires { IsVariable self.now var }
        ensures { slice_get (variable_kinds self.now) var ≡ Some result }
    {
        match self.entry(var) {
            Entry::Input { number } => VarKind::Input { number },
            Entry::Gate { kind, .. } => VarKind::Gate { kind },
            Entry::Wire { gate, pin, source } => VarKind::Wire {
                gate,
                pin: pin as u32,
                source,
            },
        }
    }

    /// The first wire of a gate, and the number of its pins.
    pub fn wires_in(&self, gate: u32) -> (u32, u32)
        requires { IsGateNumber self.now gate }
        ensures first { result.0 ≡ first_wire self.now gate }
        ensures pins { result.1 ≡ length (gate_at self.now gate).sources }
        ensures inside { result.0 + result.1 ≤ length (network_of self.now) }
    {
        let wires = self.parts.gates[(gate - self.circuit.inputs()) as usize];
        (wires.first, wires.pins as u32)
    }

    /// The wires whose source is the node, ascending.
    pub fn fan_out(&self, node: u32) -> &[u32]
        requires { node < length self.now.names }
        ensures { result.now ≡ fan_out_of self.now node }
    {
        let start = self.fan_out.starts[node as usize];
        let end = self.fan_out.starts[node as usize + 1];
        part(self.fan_out.readers.as_slice(), start, end)
    }

    /// The variables that read a variable: the wires from a node, ascending, or the gate that a wire goes into.
    pub fn readers(&self, var: u32) -> &[u32]
        requires { IsVariable self.now var }
        ensures readers { result.now ≡ readers_of self.now var }
        ensures inside { All (IsVariable self.now) result.now }
    {
        let nodes = self.circuit.nodes();
        if var < nodes {
            return self.fan_out(var);
        }
        slice::from_ref(&self.parts.goes[(var - nodes) as usize])
    }

    /// The excitation of a variable: the external input for an input, the gate function of its own wires for a gate, the
    /// value of its source for a wire.
    pub fn excite(&self, input: &[bool], state: &[bool], var: u32) -> bool
        requires var { IsVariable self.now var }
        requires input { IsInput self.now input.now }
        requires state { IsState self.now state.now }
        ensures { result ≡ excitation (network_of self.now) input.now state.now var }
    {
        match self.entry(var) {
            Entry::Input { number } => input[number as usize],
            Entry::Gate { kind, first, pins } => kind.eval(
                &state[first as usize..(first + pins as u32) as usize],
            ),
            Entry::Wire { source, .. } => state[source as usize],
        }
    }

    /// The ternary extension of the excitation. It counts as a step.
    pub fn excite3<L: Ledger>(
        &self,
        input: &[bool],
        state: &[Tri],
        var: u32,
        steps: &mut Steps<L>,
    ) -> Tri
        requires var { IsVariable self.now var }
        requires input { IsInput self.now input.now }
        requires state { IsState self.now state.now }
        ensures value { result ≡ excitation3 (network_of self.now) input.now state.now var }
        ensures steps { steps.new ≡ steps.old + 1 }
    {
        steps.tick();
        match self.entry(var) {
            Entry::Input { number } => Tri::of(input[number as usize]),
            Entry::Gate { kind, first, pins } => kind.eval3(
                &state[first as usize..(first + pins as u32) as usize],
            ),
            Entry::Wire { source, .. } => state[source as usize],
        }
    }

    /// Sets each node to its given value and each wire to its source's.
    pub fn expand(&self, nodes: &[bool], state: &mut [bool])
        requires nodes { length nodes.now ≡ length self.now.names }
        requires state { IsState self.now state.old }
        ensures { state.new ≡ expansion_of self.now nodes.now }
    {
        for var in 0..self.len() {
            state[var as usize] = self.expanded_value(nodes, var);
        }
    }

    /// Whether each variable has the value of its excitation.
    pub fn settled(&self, input: &[bool], state: &[bool]) -> bool
        requires input { IsInput self.now input.now }
        requires state { IsState self.now state.now }
        ensures { IsTrue result ↔ IsStable (network_of self.now) input.now state.now }
    {
        for var in 0..self.len() {
            if state[var as usize] != self.excite(input, state, var) {
                return false;
            }
        }
        true
    }

    // The value of a variable where each node has its given value and each wire its source's.
    fn expanded_value(&self, nodes: &[bool], var: u32) -> bool
        requires var { IsVariable self.now var }
        requires nodes { length nodes.now ≡ length self.now.names }
        ensures { result ≡ bit_at (expansion_of self.now nodes.now) var }
    {
        match self.entry(var) {
            Entry::Input { .. } => nodes[var as usize],
            Entry::Gate { .. } => nodes[var as usize],
            Entry::Wire { source, .. } => nodes[source as usize],
        }
    }

    // What the network keeps of a variable.
    fn entry(&self, var: u32) -> Entry
        requires { IsVariable self.now var }
        ensures driver { driver_at (network_of self.now) var ≡ driver_of result }
        ensures seen { slice_get (variable_kinds self.now) var ≡ Some (entry_kind result) }
        ensures place { IsEntryAt self.now var result }
        ensures bound { length (network_of self.now) ≤ most_variables }
        ensures circuit { IsCircuit self.now }
    {
        self.parts.at(&self.circuit, var)
    }
}
