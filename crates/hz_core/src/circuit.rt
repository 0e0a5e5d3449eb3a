//! Circuits: named inputs, flip-flops that are cut, gates with their sources, and outputs.
ghost use Rattle.std.specs.Prelude.{◌≡◌, ◌+◌, ◌<◌, ◌≤◌, ◌↔◌, length, slice_get, Some, None, IsTrue, IfOk, IsOk, OnOk, OnErr, [], ◌∷◌, ◌++◌, All, nat_eq, position};
ghost use Rattle.std.specs.List.{list_any};
ghost use Rattle.std.specs.Str.{bytes_eq};
ghost use Rattle.hz_core.specs.Gate.{most_pins};
ghost use Rattle.hz_core.specs.Netlist.{IsName, IsCircuit, IsCutNumber, IsGateNumber, IsWhole, node_named, variable_count, primary_inputs, data_of, has_output, gate_at, empty_netlist, with_input, with_cut, with_data, with_gate, with_pin, with_output};
ghost use Rattle.hz_core.specs.Pins.{with_pins};
ghost use Rattle.hz_core.specs.Limits.{most_variables};

use crate::gate::GateEntry;
use crate::name::{Name, NodeName};
use crate::{Kind, Memory, NameHashing};
use hz_lists::NumberList;
use indexmap::IndexSet;
use std::alloc::Global;
use std::marker::Model;

/// The most variables of a circuit's complete network: its nodes and its pins.
pub const MAX_VARIABLES: u32 = 200_000;

/// A circuit of gates, which may read each other in a circle.
///
/// A node is an input or a gate. Nodes are numbered from 0 in the order in which they were added, inputs before gates, and
/// each has a name. Each pin of a gate reads a node, its source.
///
/// A flip-flop is cut: its output is an input, which comes after the primary inputs, and the node that it reads is its data
/// node. So a clocked circuit is one without flip-flops between two edges of its clock.
#[derive(Debug, Drop)]
pub struct Circuit {
    names: IndexSet<NodeName, NameHashing>,
    inputs: u32,
    cuts: Vec<Option<u32>>,
    gates: Vec<GateEntry>,
    outputs: NumberList,
    pins: u32,
}

impl Model for Circuit {
    ghost use Rattle.hz_core.specs.Netlist.{Netlist};

    ghost Value = { Netlist };

    ghost use Rattle.hz_core.specs.Inside.{netlist_of_fields, HoldsCircuit};

    ghost view = { netlist_of_fields };

    ghost invariant = { HoldsCircuit };
}

impl Circuit {
    /// A circuit without nodes. It allocates nothing. Its names are hashed plainly, so they should be names that nobody chose to
    /// collide; for others there is `with_names`.
    pub fn new(alloc: Global) -> Circuit
        ensures { result ≡ empty_netlist }
    {
        Circuit::of_names(alloc, IndexSet::with_hasher(alloc, NameHashing::plain()))
    }

    /// A circuit without nodes, whose names are hashed in this way, with room for that many.
    pub fn with_names(alloc: Global, hashing: NameHashing, names: usize) -> Result<Circuit, Memory>
        ensures { IfOk result (λ circuit. circuit ≡ empty_netlist) }
    {
        let names = IndexSet::with_capacity_and_hasher(alloc, names, hashing)?;
        Ok(Circuit::of_names(alloc, names))
    }

    // A circuit without nodes.
    fn of_names(alloc: Global, names: IndexSet<NodeName, NameHashing>) -> Circuit
        requires { names.keys ≡ [] }
        ensures { result ≡ empty_netlist }
    {
        Circuit {
            names,
            inputs: 0,
            cuts: Vec::new(alloc),
            gates: Vec::new(alloc),
            outputs: NumberList::new(alloc),
            pins: 0,
        }
    }

    /// How the names are hashed.
    pub fn hashing(&self) -> NameHashing {
        *self.names.hasher()
    }

    /// Adds a primary input, and returns its number. Primary inputs come before cuts, and cuts before gates.
    pub fn add_input(&mut self, name: &[u8]) -> Result<u32, Memory>
        requires name { IsName name.now }
        requires fresh { node_named self.old name.now ≡ None }
        requires no_cut { self.old.cuts ≡ [] }
        requires no_gate { self.old.gates ≡ [] }
        requires room { variable_count self.old < most_variables }
        ensures ok { IfOk result
            (λ number. (number ≡ length self.old.names)
            × (self.new ≡ with_input self.old name.now)) }
        ensures err { OnErr result (self.new ≡ self.old) }
    {
        let number = self.names.len() as u32;
        add_name(&mut self.names, name)?;
        self.inputs += 1;
        Ok(number)
    }

    /// Adds a cut, which has no data node yet, and returns its number.
    pub fn add_cut(&mut self, name: &[u8]) -> Result<u32, Memory>
        requires name { IsName name.now }
        requires fresh { node_named self.old name.now ≡ None }
        requires no_gate { self.old.gates ≡ [] }
        requires room { variable_count self.old < most_variables }
        ensures ok { IfOk result
            (λ number. (number ≡ length self.old.names) × (self.new ≡ with_cut self.old name.now)) }
        ensures err { OnErr result (self.new ≡ self.old) }
    {
        let number = self.names.len() as u32;
        let Ok(()) = self.cuts.reserve(1) else {
            return Err(Memory);
        };
        add_name(&mut self.names, name)?;
        self.cuts.push_reserved(None);
        self.inputs += 1;
        Ok(number)
    }

    /// Makes a node the data node of a cut.
    pub fn set_data(&mut self, cut: u32, node: u32)
        requires cut { IsCutNumber self.old cut }
        requires node { node < length self.old.names }
        ensures { self.new ≡ with_data self.old cut node }
    {
        let place = cut as usize + self.cuts.len() - self.inputs as usize;
        self.cuts[place] = Some(node);
    }

    /// Adds a gate, which has no pin yet, and returns its number.
    #[inline(always)]
    pub fn add_gate(&mut self, name: &[u8], kind: Kind) -> Result<u32, Memory>
        requires name { IsName name.now }
        requires fresh { node_named self.old name.now ≡ None }
        requires room { variable_count self.old < most_variables }
        ensures ok { IfOk result
            (λ number. (number ≡ length self.old.names)
            × (self.new ≡ with_gate self.old name.now kind)) }
        ensures err { OnErr result (self.new ≡ self.old) }
    {
        let number = self.names.len() as u32;
        let alloc = *self.names.allocator();
        let Ok(()) = self.gates.reserve(1) else {
            return Err(Memory);
        };
        add_name(&mut self.names, name)?;
        self.gates.push_reserved(GateEntry::new(alloc, kind));
        Ok(number)
    }

    /// Adds a pin to a gate, after its last one.
    #[inline(always)]
    pub fn connect(&mut self, gate: u32, source: u32) -> Result<(), Memory>
        requires gate { IsGateNumber self.old gate }
        requires source { source < length self.old.names }
        requires pins { length (gate_at self.old gate).sources
            < most_pins (gate_at self.old gate).kind }
        requires room { variable_count self.old < most_variables }
        ensures ok { OnOk result (self.new ≡ with_pin self.old gate source) }
        ensures err { OnErr result (self.new ≡ self.old) }
    {
        let number = (gate - self.inputs) as usize;
        let Ok(()) = self.gates[number].connect(source) else {
            return Err(Memory);
        };
        self.pins += 1;
        Ok(())
    }

    /// Adds pins to a gate, after its last one.
    #[inline(always)]
    pub fn connect_all(&mut self, gate: u32, sources: &[u32]) -> Result<(), Memory>
        requires gate { IsGateNumber self.old gate }
        requires sources { All (λ source. source < length self.old.names) sources.now }
        requires pins { length (gate_at self.old gate).sources + length sources.now
            ≤ most_pins (gate_at self.old gate).kind }
        requires room { variable_count self.old + length sources.now ≤ most_variables }
        ensures ok { OnOk result (self.new ≡ with_pins self.old gate sources.now) }
        ensures err { OnErr result (self.new ≡ self.old) }
    {
        let number = (gate - self.inputs) as usize;
        let Ok(()) = self.gates[number].connect_all(sources) else {
            return Err(Memory);
        };
        self.pins += sources.len() as u32;
        Ok(())
    }

    /// Makes a node an output. One that is an output already stays in its place.
    pub fn add_output(&mut self, node: u32) -> Result<(), Memory>
        requires { node < length self.old.names }
        ensures there { IsTrue (list_any (nat_eq node) self.old.outputs) → IsOk result }
        ensures ok { OnOk result (self.new ≡ with_output self.old node) }
        ensures err { OnErr result (self.new ≡ self.old) }
    {
        let Ok(()) = self.outputs.insert(node) else {
            return Err(Memory);
        };
        Ok(())
    }

    /// The node with this name, by its bytes.
    pub fn find(&self, name: &[u8]) -> Option<u32>
        ensures found { result ≡ node_named self.now name.now }
        ensures circuit { IsCircuit self.now }
    {
        let place = self.names.get_index_of(&Name::new(name))?;
        Some(place as u32)
    }

    /// A node's name.
    pub fn name(&self, node: u32) -> &[u8]
        requires { node < length self.now.names }
        ensures name { slice_get self.now.names node ≡ Some result.now }
        ensures circuit { IsCircuit self.now }
    {
        self.names.as_slice()[node as usize].as_slice()
    }

    /// The number of inputs, cuts among them.
    pub fn inputs(&self) -> u32
        ensures inputs { result ≡ self.now.inputs }
        ensures circuit { IsCircuit self.now }
    {
        self.inputs
    }

    /// The number of inputs that are no cuts. They come first.
    pub fn primary_inputs(&self) -> u32
        ensures inputs { result ≡ primary_inputs self.now }
        ensures circuit { IsCircuit self.now }
    {
        self.inputs - self.cuts.len() as u32
    }

    /// The data node of a cut: None for an input that is no cut, and for a cut whose data node is not set.
    pub fn data_of(&self, input: u32) -> Option<u32>
        requires { input < self.now.inputs }
        ensures node { result ≡ data_of self.now input }
        ensures circuit { IsCircuit self.now }
    {
        let first = self.inputs - self.cuts.len() as u32;
        if input < first {
            return None;
        }
        self.cuts[(input - first) as usize]
    }

    /// The law that each circuit has the shape of one.
    pub fn keeps_shape(&self)
        ensures { IsCircuit self.now }
    {
        let _ = &self.names;
    }

    /// The number of nodes.
    pub fn nodes(&self) -> u32
        ensures nodes { result ≡ length self.now.names }
        ensures circuit { IsCircuit self.now }
    {
        self.names.len() as u32
    }

    /// The number of variables of the complete network: nodes and pins. It counts nothing, and takes no longer for a
    /// large circuit.
    pub fn variables(&self) -> u32
        ensures variables { result ≡ variable_count self.now }
        ensures circuit { IsCircuit self.now }
    {
        self.names.len() as u32 + self.pins
    }

    /// The kind of a gate.
    pub fn kind(&self, gate: u32) -> Kind
        requires { IsGateNumber self.now gate }
        ensures kind { result ≡ (gate_at self.now gate).kind }
        ensures circuit { IsCircuit self.now }
    {
        self.gates[(gate - self.inputs) as usize].kind()
    }

    /// The nodes that a gate's pins read, in the order of the pins.
    pub fn sources(&self, gate: u32) -> &[u32]
        requires { IsGateNumber self.now gate }
        ensures sources { result.now ≡ (gate_at self.now gate).sources }
        ensures circuit { IsCircuit self.now }
    {
        self.gates[(gate - self.inputs) as usize].sources()
    }

    /// The outputs, in the order in which they were first added.
    pub fn outputs(&self) -> &[u32]
        ensures outputs { result.now ≡ self.now.outputs }
        ensures circuit { IsCircuit self.now }
    {
        self.outputs.as_slice()
    }

    /// Whether each gate has a pin, and each cut a data node that is an output. Then each gate has as many pins as its kind
    /// takes.
    pub fn whole(&self) -> bool
        ensures whole { IsTrue result ↔ IsWhole self.now }
        ensures circuit { IsCircuit self.now }
    {
        every_gate_has_pins(self.gates.as_slice())
            && every_cut_has_output(self.cuts.as_slice(), &self.outputs)
    }
}

// Adds a name after the others.
#[inline(always)]
fn add_name(names: &mut IndexSet<NodeName, NameHashing>, name: &[u8]) -> Result<(), Memory>
    requires { position (bytes_eq name.now) names.old.keys ≡ None }
    ensures ok { OnOk result (names.new.keys ≡ names.old.keys ++ name.now ∷ []) }
    ensures err { OnErr result (names.new.keys ≡ names.old.keys) }
{
    let entry = NodeName::new(*names.allocator(), name)?;
    names.insert(entry)?;
    Ok(())
}

// Whether each gate has a pin.
fn every_gate_has_pins(gates: &[GateEntry]) -> bool
    ensures { IsTrue result ↔ All (λ gate. 1 ≤ length gate.sources) gates.now }
{
    gates.iter().all(|gate| gate.has_pins())
}

// Whether each cut has a data node that is an output.
fn every_cut_has_output(cuts: &[Option<u32>], outputs: &NumberList) -> bool
    ensures { IsTrue result ↔ All (λ node. IsTrue (has_output outputs.now node)) cuts.now }
{
    cuts.iter().all(|node| is_output(outputs, *node))
}

// Whether there is a data node, and it is an output.
fn is_output(outputs: &NumberList, node: Option<u32>) -> bool
    ensures { result ≡ has_output outputs.now node }
{
    match node {
        Some(node) => outputs.contains(node),
        None => false,
    }
}
