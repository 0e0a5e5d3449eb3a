//! The circuit of a draft.
//!
//! A draft is what a reader made of a text: each name by its number in the table of names, and each
//! gate with what its pins read. Every format's circuit is built here.
//!
//! A gate of a text may stand for several: then one has the name, and the others, its inner gates,
//! have names that are made of it. No text needs to name these, so they have no number in the table,
//! and a pin reads them by their place among the gates.

ghost use Rattle.std.specs.Prelude.{◌≡◌, ◌+◌, ◌++◌, ◌<◌, ◌≤◌, ℕ, All, List, decimal, IfOk, OnOk, fold, length, map};
ghost use Rattle.hz_core.specs.Limits.{most_variables};
ghost use Rattle.hz_core.specs.Netlist.{primary_inputs};
ghost use Rattle.hz_netlist.specs.Build.{AreAdmissibleSteps};
ghost use Rattle.hz_netlist.specs.Circuit.{circuit_of_elements};
ghost use Rattle.hz_netlist.specs.Draft.{AreNodesBy, IsBuildable, MayAddCutNumbered, MayAddGateEntry, MayAddInputNumbered, MayAddPinsBy, MaySetDataBy, ReadsGateBelow, ReadsNameBelow, drafted, source_node, with_cut_numbered, with_data_by, with_gate_entry, with_gate_nodes, with_nodes_from, with_input_numbered, with_pins_by, with_role_node};
ghost use Rattle.hz_netlist.specs.Element.{Element};
ghost use Rattle.hz_netlist.specs.Names.{AreNumbers, name_at};

use crate::build::{add_outputs_and_data, resolve};
use crate::growing::push;
use crate::names::NameTable;
use hz_core::{Circuit, Kind, Memory};
use itoa::Buffer;
use std::alloc::Global;

/// Which gate a gate is, of those that one gate of a text stands for.
#[derive(Clone, Copy)]
pub enum Role {
    /// The inverter of the pin with this number, counted from 1.
    Inverter(u32),
    /// The gate of the row with this number, counted from 1.
    Row(u32),
    /// The gate with the name of the text.
    Output,
}

/// A gate.
#[derive(Clone, Copy)]
pub struct Gate {
    pub role: Role,
    pub kind: Kind,
    /// The name of the text that it has, or that its own name is made of, by its number.
    pub output: u32,
    /// How many pins it has.
    pub pins: usize,
}

/// What a pin or a flip-flop reads.
#[derive(Clone, Copy)]
pub enum Source {
    /// The node with a name of the text, by the name's number.
    Name(u32),
    /// A gate, counted from 0 among all gates.
    Gate(usize),
}

/// What was read of a text.
#[derive(Clone, Copy)]
pub struct Draft<'d, 't> {
    pub names: &'d NameTable<'t>,
    /// The inputs, by the numbers of their names.
    pub inputs: &'d [u32],
    /// The flip-flops, which are cut, by the numbers of their names.
    pub cuts: &'d [u32],
    /// What these read.
    pub cut_sources: &'d [Source],
    pub gates: &'d [Gate],
    /// What the pins of the gates read, gate after gate.
    pub sources: &'d [Source],
    /// The outputs, by the numbers of their names.
    pub outputs: &'d [u32],
}

/// The circuit of what was read of a text without a fault.
pub fn build_draft(alloc: Global, draft: &Draft) -> Result<Circuit, Memory>
    requires { (elements : List Element) × IsBuildable elements (drafted draft.now) }
    ensures { (elements : List Element) → IsBuildable elements (drafted draft.now)
        → IfOk result (λ circuit. circuit ≡ circuit_of_elements elements) }
{
    let inputs = draft.inputs.len() + draft.cuts.len();
    let hashing = draft.names.hashing();
    let mut circuit = Circuit::with_names(alloc, hashing, inputs + draft.gates.len())?;
    add_inputs(&mut circuit, draft.names, draft.inputs)?;
    add_cuts(&mut circuit, draft.names, draft.cuts)?;
    add_gates(alloc, &mut circuit, draft.names, draft.gates)?;
    let nodes = number_nodes(alloc, draft)?;
    let first = circuit.inputs();
    let cut_sources = resolve_sources(alloc, draft.cut_sources, nodes.as_slice(), inputs)?;
    set_data(&mut circuit, cut_sources.as_slice());
    let pins = resolve_sources(alloc, draft.sources, nodes.as_slice(), inputs)?;
    connect_gates(&mut circuit, first, draft.gates, pins.as_slice())?;
    let outputs = resolve(alloc, draft.outputs, nodes.as_slice())?;
    add_outputs_and_data(alloc, &mut circuit, outputs.as_slice())?;
    Ok(circuit)
}

// The node of each name: inputs are numbered before cuts, and these before gates. A name that nothing
// defines has none, and 0 stands in.
fn number_nodes(alloc: Global, draft: &Draft) -> Result<Vec<u32>, Memory>
    requires inputs { AreNumbers draft.now.names.now draft.now.inputs.now }
    requires cuts { AreNumbers draft.now.names.now draft.now.cuts.now }
    requires gates { All (λ gate. gate.output < length draft.now.names.now) draft.now.gates.now }
    requires few { length draft.now.inputs.now + length draft.now.cuts.now
        + length draft.now.gates.now ≤ most_variables }
    ensures { IfOk result (λ nodes. AreNodesBy (drafted draft.now) nodes.items) }
{
    let Ok(mut nodes) = vec![in alloc; 0u32; draft.names.len()] else {
        return Err(Memory);
    };
    let cuts = draft.inputs.len();
    let gates = cuts + draft.cuts.len();
    number_names(&mut nodes, draft.inputs, 0);
    number_names(&mut nodes, draft.cuts, cuts as u32);
    number_gates(&mut nodes, draft.gates, gates as u32);
    Ok(nodes)
}

// The nodes of names with these numbers: the first is this node.
fn number_names(nodes: &mut Vec<u32>, names: &[u32], first: u32)
    requires names { All (λ number. number < length nodes.old.items) names.now }
    requires few { first + length names.now ≤ most_variables }
    ensures nodes { nodes.new.items ≡ with_nodes_from first nodes.old.items names.now }
    ensures length { length nodes.new.items ≡ length nodes.old.items }
{
    let mut node = first;
    for number in names {
        nodes[*number as usize] = node;
        node += 1;
    }
}

// The nodes of gates that have names of the text: the first gate is this node.
fn number_gates(nodes: &mut Vec<u32>, gates: &[Gate], first: u32)
    requires outputs { All (λ gate. gate.output < length nodes.old.items) gates.now }
    requires few { first + length gates.now ≤ most_variables }
    ensures nodes { nodes.new.items ≡ with_gate_nodes first nodes.old.items gates.now }
{
    let mut node = first;
    for gate in gates {
        number_gate(nodes, gate, node);
        node += 1;
    }
}

// The node of a gate, if it has a name of the text.
#[inline(always)]
fn number_gate(nodes: &mut Vec<u32>, gate: &Gate, node: u32)
    requires { gate.now.output < length nodes.old.items }
    ensures nodes { nodes.new.items
        ≡ with_role_node gate.now.role node nodes.old.items gate.now.output }
    ensures length { length nodes.new.items ≡ length nodes.old.items }
{
    match gate.role {
        Role::Output => nodes[gate.output as usize] = node,
        Role::Inverter(_) | Role::Row(_) => {}
    }
}

// The nodes that pins or cuts read, if so many inputs and cuts come before the gates.
fn resolve_sources(
    alloc: Global,
    sources: &[Source],
    nodes: &[u32],
    inputs: usize,
) -> Result<Vec<u32>, Memory>
    requires names { All (ReadsNameBelow (length nodes.now)) sources.now }
    requires gates { (gates : ℕ) × (inputs + gates ≤ most_variables)
        × All (ReadsGateBelow gates) sources.now }
    ensures { IfOk result (λ pins. pins.items ≡ map (source_node nodes.now inputs) sources.now) }
{
    let Ok(mut pins) = Vec::with_capacity(alloc, sources.len()) else {
        return Err(Memory);
    };
    for source in sources {
        let node = match source {
            Source::Name(name) => nodes[*name as usize],
            Source::Gate(gate) => (inputs + *gate) as u32,
        };
        push(&mut pins, node)?;
    }
    Ok(pins)
}

// Adds the inputs with these names.
fn add_inputs(circuit: &mut Circuit, names: &NameTable, inputs: &[u32]) -> Result<(), Memory>
    requires numbers { AreNumbers names.now inputs.now }
    requires may { AreAdmissibleSteps (MayAddInputNumbered (name_at names.now))
        (with_input_numbered (name_at names.now)) circuit.old inputs.now }
    ensures { OnOk result (circuit.new
        ≡ fold (with_input_numbered (name_at names.now)) circuit.old inputs.now) }
{
    for input in inputs {
        match circuit.add_input(names.name(*input)) {
            Ok(_) => {}
            Err(Memory) => return Err(Memory),
        }
    }
    Ok(())
}

// Adds the cuts, without data nodes.
fn add_cuts(circuit: &mut Circuit, names: &NameTable, cuts: &[u32]) -> Result<(), Memory>
    requires numbers { AreNumbers names.now cuts.now }
    requires may { AreAdmissibleSteps (MayAddCutNumbered (name_at names.now))
        (with_cut_numbered (name_at names.now)) circuit.old cuts.now }
    ensures { OnOk result (circuit.new
        ≡ fold (with_cut_numbered (name_at names.now)) circuit.old cuts.now) }
{
    for cut in cuts {
        match circuit.add_cut(names.name(*cut)) {
            Ok(_) => {}
            Err(Memory) => return Err(Memory),
        }
    }
    Ok(())
}

// Adds the gates, without pins. Names that are made stand in one buffer.
fn add_gates(
    alloc: Global,
    circuit: &mut Circuit,
    names: &NameTable,
    gates: &[Gate],
) -> Result<(), Memory>
    requires numbers { All (λ gate. gate.output < length names.now) gates.now }
    requires may { AreAdmissibleSteps (MayAddGateEntry (name_at names.now)) (with_gate_entry
        (name_at names.now)) circuit.old gates.now }
    ensures { OnOk result (circuit.new
        ≡ fold (with_gate_entry (name_at names.now)) circuit.old gates.now) }
{
    let mut buffer = Vec::new(alloc);
    for gate in gates {
        match add_gate(circuit, names, &mut buffer, gate) {
            Ok(()) => {}
            Err(Memory) => return Err(Memory),
        }
    }
    Ok(())
}

// Adds a gate, without pins. The buffer is for a name that is made.
#[inline(always)]
fn add_gate(
    circuit: &mut Circuit,
    names: &NameTable,
    buffer: &mut Vec<u8>,
    gate: &Gate,
) -> Result<(), Memory>
    requires number { gate.now.output < length names.now }
    requires may { MayAddGateEntry (name_at names.now) circuit.old gate.now }
    ensures { OnOk result (circuit.new ≡ with_gate_entry (name_at names.now) circuit.old gate.now) }
{
    let name = names.name(gate.output);
    match gate.role {
        Role::Output => {
            circuit.add_gate(name, gate.kind)?;
            Ok(())
        }
        Role::Inverter(pin) => {
            write_name(buffer, name, b"\\n", pin)?;
            circuit.add_gate(buffer.as_slice(), gate.kind)?;
            Ok(())
        }
        Role::Row(row) => {
            write_name(buffer, name, b"\\r", row)?;
            circuit.add_gate(buffer.as_slice(), gate.kind)?;
            Ok(())
        }
    }
}

// Writes a name that is made into the buffer: the name of the text, a word and a number.
fn write_name(buffer: &mut Vec<u8>, name: &[u8], word: &[u8], number: u32) -> Result<(), Memory>
    ensures { OnOk result (buffer.new.items ≡ (name.now ++ word.now) ++ decimal number) }
{
    buffer.clear();
    extend(buffer, name)?;
    extend(buffer, word)?;
    let mut digits = Buffer::new();
    extend(buffer, digits.format(number).as_bytes())
}

// Adds bytes to the buffer.
fn extend(buffer: &mut Vec<u8>, bytes: &[u8]) -> Result<(), Memory>
    ensures { OnOk result (buffer.new.items ≡ buffer.old.items ++ bytes.now) }
{
    match buffer.extend_from_slice(bytes) {
        Ok(()) => Ok(()),
        Err(_) => Err(Memory),
    }
}

// Gives the cuts these data nodes, one after the other.
fn set_data(circuit: &mut Circuit, nodes: &[u32])
    requires { MaySetDataBy circuit.old (primary_inputs circuit.old) nodes.now }
    ensures { circuit.new ≡ with_data_by circuit.old (primary_inputs circuit.old) nodes.now }
{
    let mut number = circuit.primary_inputs();
    for node in nodes {
        circuit.set_data(number, *node);
        number += 1;
    }
}

// Connects the pins of the gates, of which this is the first, to these nodes, gate after gate.
fn connect_gates(
    circuit: &mut Circuit,
    first: u32,
    gates: &[Gate],
    pins: &[u32],
) -> Result<(), Memory>
    requires { MayAddPinsBy circuit.old first gates.now pins.now }
    ensures { OnOk result (circuit.new ≡ with_pins_by circuit.old first gates.now pins.now) }
{
    let mut number = first;
    let mut left = pins;
    for gate in gates {
        let (sources, rest) = left.split_at(gate.pins);
        match circuit.connect_all(number, sources) {
            Ok(()) => {}
            Err(Memory) => return Err(Memory),
        }
        number += 1;
        left = rest;
    }
    Ok(())
}
