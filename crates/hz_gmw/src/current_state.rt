//! The current state of a network, with what is counted of it.
//!
//! The idea. A gate's value depends only on how many of its pins are 1, so one count for each gate gives its excitation.
//! A wire is unstable if it differs from its source, so when a node changes, the stable wires from it become unstable and the
//! others stable: one subtraction, whatever the fan-out. Only a variable and its readers can become stable or unstable when
//! it changes, so the count of all unstable variables is mended by what is unstable among these before and after. What they
//! are is looked up once, and no excitation but that of a wire's gate changes.
//!
//! If a whole state is given, its variables change without that, and the unstable ones are counted afterwards, node by node.
//!
//! What must stay true: `IsCounted` after every write to `input` or `state`, so no one else writes to them, but for a follower that
//! looks ahead and puts the state back; `IsExact` after every `flip`, `set_input` and `turn_to`.
//!
//! What breaks if you add a kind: one that is not symmetric in its pins (a multiplexer) has no value by a count of ones. If you
//! add a kind of variable with readers of its own: `change_node`, `unstable_from` and `flip_wire` do not count them.
ghost use Rattle.std.specs.Prelude.{◌≡◌, ◌<◌, ◌≤◌, ◌-◌, ◌+◌, ◌∷◌, true, false, not, length, count_by, sum_by, All, IfOk, slice_set, replicate, List, Bool, if◌then◌else◌};
ghost use Rattle.hz_core.specs.Netlist.{IsCircuit, IsGateNumber};
ghost use Rattle.hz_net.specs.Network.{network_of, driver_at, excitation, Source, IsState, IsInput, IsVariable};
ghost use Rattle.hz_net.specs.Reads.{IsWireInto};
ghost use Rattle.hz_net.specs.Variables.{fan_out_of};
ghost use Rattle.hz_lists.specs.Listed.{IsRepeatFree};
ghost use Rattle.hz_gmw.specs.Runs.{state_after};
ghost use Rattle.hz_gmw.specs.Instability.{is_unstable, unstable_count};
ghost use Rattle.hz_gmw.specs.LeastListed.{least_from};
ghost use Rattle.hz_net.specs.Driven.{IsDrivenAs};
ghost use Rattle.hz_core.specs.Limits.{most_variables};

use crate::ones::value_of_ones;
use hz_core::Memory;
use hz_lists::lesser;
use hz_net::{Net, VarKind};
use std::alloc::Global;

/// The external input and the state, of each node how many of its pins are 1 and how many of the wires from it are
/// unstable, and how many variables are unstable in all. With these counts a variable changes in constant time, whatever
/// its fan-out, and whether a variable is unstable is told in constant time too.
#[derive(Debug, Drop)]
pub(crate) struct CurrentState {
    pub input: Vec<bool>,
    pub state: Vec<bool>,
    pub ones: Vec<u32>,
    pub unstable_wires: Vec<u32>,
    pub unstable: u32,
}

impl CurrentState {
    ghost use Rattle.hz_gmw.specs.CurrentState.{IsCounted, IsExact, lags_in, excitation_in, with_flip, with_bits_of, unstable_from, AreOnes};

    /// Every input and every variable is 0.
    pub(crate) fn new(alloc: Global, net: &Net) -> Result<CurrentState, Memory>
        ensures exact { IfOk result (λ current. IsExact net.now current) }
        ensures input { IfOk result
            (λ current. current.input.items ≡ replicate net.now.inputs false) }
        ensures state { IfOk result
            (λ current. current.state.items ≡ replicate (length (network_of net.now)) false) }
    {
        let input = vec![in alloc; false; net.circuit().inputs() as usize]?;
        let state = vec![in alloc; false; net.len() as usize]?;
        let ones = vec![in alloc; 0; net.circuit().nodes() as usize]?;
        let unstable_wires = vec![in alloc; 0; net.circuit().nodes() as usize]?;
        let mut current = CurrentState {
            input,
            state,
            ones,
            unstable_wires,
            unstable: 0,
        };
        current.unstable = current.count_unstable(net);
        Ok(current)
    }

    /// Changes the listed variables, each once.
    pub(crate) fn advance(&mut self, net: &Net, flips: &[u32])
        requires exact { IsExact net.now self.old }
        requires inside { All (IsVariable net.now) flips.now }
        requires once { IsRepeatFree flips.now }
        ensures exact { IsExact net.now self.new }
        ensures input { self.new.input.items ≡ self.old.input.items }
        ensures state { self.new.state.items ≡ state_after flips.now self.old.state.items }
    {
        for var in flips {
            self.flip(net, *var);
        }
    }

    /// Turns the state into a given one. Only variables that differ are changed.
    pub(crate) fn turn_to(&mut self, net: &Net, state: &[bool])
        requires exact { IsExact net.now self.old }
        requires state { IsState net.now state.now }
        ensures exact { IsExact net.now self.new }
        ensures input { self.new.input.items ≡ self.old.input.items }
        ensures state { self.new.state.items ≡ state.now }
    {
        if are_same(self.state.as_slice(), state) {
            return;
        }
        self.change_each(net, state);
        self.unstable = self.count_unstable(net);
    }

    // The same, but the unstable variables are not counted.
    fn change_each(&mut self, net: &Net, state: &[bool])
        requires counted { IsCounted net.now self.old }
        requires state { IsState net.now state.now }
        ensures counted { IsCounted net.now self.new }
        ensures input { self.new.input.items ≡ self.old.input.items }
        ensures state { self.new.state.items ≡ state.now }
    {
        for var in 0..net.len() {
            self.change_to(net, var, state[var as usize]);
        }
    }

    /// Gives the listed variables the values that they have in a given state.
    pub(crate) fn turn_back(&mut self, net: &Net, list: &[u32], state: &[bool])
        requires exact { IsExact net.now self.old }
        requires inside { All (IsVariable net.now) list.now }
        requires state { IsState net.now state.now }
        ensures exact { IsExact net.now self.new }
        ensures input { self.new.input.items ≡ self.old.input.items }
        ensures state { self.new.state.items
            ≡ with_bits_of state.now self.old.state.items list.now }
    {
        for var in list {
            self.turn(net, *var, state[*var as usize]);
        }
    }

    /// Turns the external input into a given one.
    pub(crate) fn turn_input(&mut self, net: &Net, input: &[bool])
        requires exact { IsExact net.now self.old }
        requires input { IsInput net.now input.now }
        ensures exact { IsExact net.now self.new }
        ensures input { self.new.input.items ≡ input.now }
        ensures state { self.new.state.items ≡ self.old.state.items }
    {
        for number in 0..net.circuit().inputs() {
            self.set_input(net, number, input[number as usize]);
        }
    }

    /// Whether a variable is unstable.
    pub(crate) fn is_unstable(&self, net: &Net, var: u32) -> bool
        requires counted { IsCounted net.now self.now }
        requires var { IsVariable net.now var }
        ensures { result ≡ lags_in net.now self.now var }
    {
        self.state[var as usize] != self.excited(net, var)
    }

    /// The least listed variable that is stable.
    pub(crate) fn least_stable(&self, net: &Net, list: &[u32]) -> Option<u32>
        requires counted { IsCounted net.now self.now }
        requires inside { All (IsVariable net.now) list.now }
        ensures { result ≡ least_from None (λ var. not (lags_in net.now self.now var)) list.now }
    {
        let mut found = None;
        for var in list {
            if !self.is_unstable(net, *var) {
                found = lesser(found, Some(*var));
            }
        }
        found
    }

    /// A number less how many of the listed nodes and of the wires from them are unstable. Wires may be listed too; they
    /// count with their nodes.
    pub(crate) fn without_nodes(&self, net: &Net, number: u32, list: &[u32]) -> u32
        requires counted { IsCounted net.now self.now }
        requires inside { All (IsVariable net.now) list.now }
        ensures { result
            ≡ number - sum_by
            (unstable_from net.now self.now.input.items self.now.state.items) list.now }
    {
        let mut left = number;
        for var in list {
            if *var < net.circuit().nodes() {
                let excited = self.excited(net, *var);
                left = left.saturating_sub(self.unstable_from(net, *var, excited));
            }
        }
        left
    }

    // Gives a variable a value. If it has it nothing is done.
    fn turn(&mut self, net: &Net, var: u32, value: bool)
        requires exact { IsExact net.now self.old }
        requires var { IsVariable net.now var }
        ensures exact { IsExact net.now self.new }
        ensures input { self.new.input.items ≡ self.old.input.items }
        ensures state { self.new.state.items ≡ slice_set self.old.state.items var value }
    {
        if self.state[var as usize] != value {
            self.flip(net, var);
        }
    }

    // Gives an input a value. Only the input itself may become stable or unstable.
    fn set_input(&mut self, net: &Net, number: u32, value: bool)
        requires exact { IsExact net.now self.old }
        requires number { number < net.now.inputs }
        ensures exact { IsExact net.now self.new }
        ensures input { self.new.input.items ≡ slice_set self.old.input.items number value }
        ensures state { self.new.state.items ≡ self.old.state.items }
    {
        if self.input[number as usize] == value {
            return;
        }
        self.unstable -= one_if(self.is_unstable(net, number));
        self.input[number as usize] = value;
        self.unstable += one_if(self.is_unstable(net, number));
    }

    // Changes a variable. Only the variable and those that read it may become stable or unstable.
    fn flip(&mut self, net: &Net, var: u32)
        requires exact { IsExact net.now self.old }
        requires var { IsVariable net.now var }
        ensures exact { IsExact net.now self.new }
        ensures input { self.new.input.items ≡ self.old.input.items }
        ensures state { self.new.state.items ≡ with_flip self.old.state.items var }
    {
        match kind_at(net, var) {
            VarKind::Wire { gate, source, .. } => self.flip_wire(net, var, gate, source),
            VarKind::Input { .. } => self.flip_node(net, var),
            VarKind::Gate { .. } => self.flip_node(net, var),
        }
    }

    // Changes a node. Its excitation stays, since a node doesn't read itself. So what is unstable among it and the wires from it
    // becomes stable, and the others unstable.
    fn flip_node(&mut self, net: &Net, node: u32)
        requires exact { IsExact net.now self.old }
        requires node { node < length net.now.names }
        ensures exact { IsExact net.now self.new }
        ensures input { self.new.input.items ≡ self.old.input.items }
        ensures state { self.new.state.items ≡ with_flip self.old.state.items node }
    {
        let excited = self.excited(net, node);
        let unstable = self.unstable_from(net, node, excited);
        let wires = self.change_node(net, node);
        self.unstable -= unstable;
        self.unstable += wires + 1 - unstable;
    }

    // Changes a wire. Only its gate reads it.
    fn flip_wire(&mut self, net: &Net, wire: u32, gate: u32, source: u32)
        requires exact { IsExact net.now self.old }
        requires into { IsWireInto (network_of net.now) gate wire }
        requires from { driver_at (network_of net.now) wire ≡ Source source }
        requires gate { gate < length net.now.names }
        requires source { source < length net.now.names }
        requires wire { IsVariable net.now wire }
        ensures exact { IsExact net.now self.new }
        ensures input { self.new.input.items ≡ self.old.input.items }
        ensures state { self.new.state.items ≡ with_flip self.old.state.items wire }
    {
        let ones = self.ones[gate as usize];
        let unstable = self.change_wire(net, wire, gate, source);
        let (before, after) = self.excited_around(net, gate, ones);
        let value = self.state[gate as usize];
        self.unstable -= one_if(!unstable) + one_if(value != before);
        self.unstable += one_if(unstable) + one_if(value != after);
    }

    // Gives a variable a value. If it has it nothing is done. The unstable variables are not counted.
    fn change_to(&mut self, net: &Net, var: u32, value: bool)
        requires counted { IsCounted net.now self.old }
        requires var { IsVariable net.now var }
        ensures counted { IsCounted net.now self.new }
        ensures input { self.new.input.items ≡ self.old.input.items }
        ensures state { self.new.state.items ≡ slice_set self.old.state.items var value }
    {
        if self.state[var as usize] != value {
            self.change(net, var);
        }
    }

    // A variable changes. The unstable variables are not counted.
    fn change(&mut self, net: &Net, var: u32)
        requires counted { IsCounted net.now self.old }
        requires var { IsVariable net.now var }
        ensures counted { IsCounted net.now self.new }
        ensures input { self.new.input.items ≡ self.old.input.items }
        ensures state { self.new.state.items ≡ with_flip self.old.state.items var }
    {
        match kind_at(net, var) {
            VarKind::Wire { gate, source, .. } => {
                self.change_wire(net, var, gate, source);
            }
            VarKind::Input { .. } => {
                self.change_node(net, var);
            }
            VarKind::Gate { .. } => {
                self.change_node(net, var);
            }
        }
    }

    // A node changes: of the wires from it the stable ones become unstable, and the others stable. Returns how many wires there
    // are.
    fn change_node(&mut self, net: &Net, node: u32) -> u32
        requires counted { IsCounted net.now self.old }
        requires node { node < length net.now.names }
        ensures counted { IsCounted net.now self.new }
        ensures input { self.new.input.items ≡ self.old.input.items }
        ensures state { self.new.state.items ≡ with_flip self.old.state.items node }
        ensures unstable { self.new.unstable ≡ self.old.unstable }
        ensures wires { result ≡ length (fan_out_of net.now node) }
    {
        let wires = net.fan_out(node).len() as u32;
        self.state[node as usize] = !self.state[node as usize];
        self.unstable_wires[node as usize] = wires - self.unstable_wires[node as usize];
        wires
    }

    // A wire changes: its gate has one more pin at 1, or one less, and its source one more unstable wire, or one less. Returns
    // whether the wire is unstable now; it was not before, or the other way round.
    fn change_wire(&mut self, net: &Net, wire: u32, gate: u32, source: u32) -> bool
        requires counted { IsCounted net.now self.old }
        requires into { IsWireInto (network_of net.now) gate wire }
        requires from { driver_at (network_of net.now) wire ≡ Source source }
        requires gate { gate < length net.now.names }
        requires source { source < length net.now.names }
        requires wire { IsVariable net.now wire }
        ensures counted { IsCounted net.now self.new }
        ensures input { self.new.input.items ≡ self.old.input.items }
        ensures state { self.new.state.items ≡ with_flip self.old.state.items wire }
        ensures unstable { self.new.unstable ≡ self.old.unstable }
        ensures lags { result ≡ lags_in net.now self.new wire }
        ensures turned { lags_in net.now self.old wire ≡ not result }
    {
        let value = !self.state[wire as usize];
        let unstable = value != self.state[source as usize];
        self.state[wire as usize] = value;
        self.ones[gate as usize] = counted(self.ones[gate as usize], value);
        self.unstable_wires[source as usize] = counted(
            self.unstable_wires[source as usize],
            unstable,
        );
        unstable
    }

    // The excitation of a variable: of a gate by its count of ones.
    fn excited(&self, net: &Net, var: u32) -> bool
        requires counted { IsCounted net.now self.now }
        requires var { IsVariable net.now var }
        ensures { result ≡ excitation_in net.now self.now var }
    {
        self.excited_as(net, var, kind_at(net, var))
    }

    // The excitation of a variable of which it is known what it is.
    fn excited_as(&self, net: &Net, var: u32, kind: VarKind) -> bool
        requires counted { IsCounted net.now self.now }
        requires kind { IsDrivenAs net.now var kind }
        ensures { result ≡ excitation_in net.now self.now var }
    {
        match kind {
            VarKind::Input { number } => self.input[number as usize],
            VarKind::Gate { kind } => {
                let (_, pins) = net.wires_in(var);
                value_of_ones(kind, self.ones[var as usize], pins)
            }
            VarKind::Wire { source, .. } => self.state[source as usize],
        }
    }

    // The excitation of a gate in a state in which that many of its wires are 1, and its excitation now.
    fn excited_around(&self, net: &Net, gate: u32, ones: u32) -> (bool, bool)
        requires counted { IsCounted net.now self.now }
        requires gate { IsGateNumber net.now gate }
        ensures before { (state : List Bool) → IsState net.now state
            → AreOnes net.now state gate ones
            → result.0 ≡ excitation (network_of net.now) self.now.input.items state gate }
        ensures now { result.1 ≡ excitation_in net.now self.now gate }
    {
        match kind_at(net, gate) {
            VarKind::Gate { kind } => {
                let (_, pins) = net.wires_in(gate);
                let before = value_of_ones(kind, ones, pins);
                let now = value_of_ones(kind, self.ones[gate as usize], pins);
                (before, now)
            }
            VarKind::Input { .. } => unreachable!(),
            VarKind::Wire { .. } => unreachable!(),
        }
    }

    // How many variables are unstable among a node, with its excitation, and the wires from it.
    fn unstable_from(&self, net: &Net, node: u32, excited: bool) -> u32
        requires counted { IsCounted net.now self.now }
        requires node { node < length net.now.names }
        requires excited { excited ≡ excitation_in net.now self.now node }
        ensures { result ≡ count_by (lags_in net.now self.now) (node ∷ fan_out_of net.now node) }
    {
        one_if(self.state[node as usize] != excited) + self.unstable_wires[node as usize]
    }

    // How many variables are unstable: each wire counts with its source.
    fn count_unstable(&self, net: &Net) -> u32
        requires { IsCounted net.now self.now }
        ensures { result
            ≡ unstable_count (network_of net.now) self.now.input.items self.now.state.items }
    {
        let mut count = 0;
        for node in 0..net.circuit().nodes() {
            let excited = self.excited(net, node);
            count += self.unstable_from(net, node, excited);
        }
        count
    }
}

// Whether two states are the same. It has no branch between two bits, since a state is mostly turned into itself: each change of
// a script begins where the one before ended.
fn are_same(one: &[bool], other: &[bool]) -> bool
    requires { length one.now ≡ length other.now }
    ensures { result ≡ true → one.now ≡ other.now }
{
    let mut same = true;
    for (var, bit) in one.iter().enumerate() {
        same &= *bit == other[var];
    }
    same
}

/// What a variable is.
pub(crate) fn kind_at(net: &Net, var: u32) -> VarKind
    requires { IsVariable net.now var }
    ensures kind { IsDrivenAs net.now var result }
    ensures circuit { IsCircuit net.now }
    ensures bound { length (network_of net.now) ≤ most_variables }
{
    net.keeps_shape();
    net.kind_of(var)
}

/// 1 for what is counted, else 0.
pub(crate) fn one_if(counts: bool) -> u32
    ensures { result ≡ (if counts then 1 else 0) }
{
    if counts { 1 } else { 0 }
}

// A count after one thing more is counted, or one less.
fn counted(count: u32, more: bool) -> u32
    requires room { count < 4294967295 }
    requires some { more ≡ false → 1 ≤ count }
    ensures { result + (if more then 0 else 1) ≡ count + (if more then 1 else 0) }
{
    if more { count + 1 } else { count - 1 }
}
