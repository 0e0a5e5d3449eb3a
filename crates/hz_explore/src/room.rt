//! The memory of an exploration.
ghost use Rattle.std.specs.Prelude.{◌≡◌, ◌<◌, ◌+◌, ◌≤◌, ◌∷◌, [], length, All, IfOk, OnOk};
ghost use Rattle.hz_net.specs.Network.{IsState};
ghost use Rattle.hz_net.specs.Starts.{IsStableStart};
ghost use Rattle.hz_net.specs.Variables.{expansion_of};
ghost use Rattle.hz_edge_reports.specs.EdgeChanges.{IsChangeFrom, IsRightChange};
ghost use Rattle.hz_edge_reports.specs.Room.{CanBeMade, change_of};
ghost use Rattle.hz_states.specs.States.{state_number, state_at};
ghost use Rattle.hz_explore.specs.Exploration.{found_with};
ghost use Rattle.hz_explore.specs.Reached.{nodes_of};
ghost use Rattle.hz_explore.specs.Transitions.{node_classes};
ghost use Rattle.hz_explore.specs.Counts.{classes_of, is_shown};
ghost use Rattle.hz_explore.specs.Inside.{changes_in, most_changes, IsExploreRoom, IsMade, IsNoted};
ghost use Rattle.hz_explore.specs.Progress.{no_totals};

use crate::counting::{Classes, Totals, count_classes};
use hz_core::Memory;
use hz_edge_reports::{ChangeRoom, Making};
use hz_net::Net;
use hz_orders::Order;
use hz_states::States;
use std::alloc::Global;
use std::hash::{BuildHasher, Hasher};

/// The most states that are found.
pub(crate) const MOST_STATES: u32 = 65_536;

/// The states that were found, each as the values of its nodes, what their changes count as, and the change that is made.
#[derive(Drop)]
pub(crate) struct ExploreRoom {
    pub states: States,
    pub totals: Totals,
    // The nodes of the state from which changes are made, and the values of all variables there.
    pub nodes: Vec<bool>,
    pub start: Vec<bool>,
    pub change: ChangeRoom,
}

/// Where a change ends: in a state, by its number if it was found, or with a variable that is unsettled.
#[derive(Clone, Copy)]
pub(crate) enum End {
    Settled(Option<u32>),
    Unsettled(u32),
}

/// What the line of a change tells of it besides its orders: the classes of the nodes, and where it ends.
#[derive(Clone, Copy)]
pub(crate) struct Made {
    pub classes: Classes,
    pub end: End,
}

impl ExploreRoom {
    // Room for the exploration of a network from a start, which is the first state.
    pub(crate) fn new(alloc: Global, net: &Net, start: &[bool]) -> Result<ExploreRoom, Memory>
        requires { IsState net.now start.now }
        ensures room { IfOk result (IsExploreRoom net.now) }
        ensures states { IfOk result (λ room. room.states ≡ nodes_of net.now start.now ∷ []) }
        ensures totals { IfOk result (λ room. room.totals ≡ no_totals) }
    {
        net.keeps_shape();
        let circuit = net.circuit();
        let nodes = circuit.nodes() as usize;
        let key = circuit.hashing().build_hasher().finish();
        let mut states = States::new(alloc, key);
        states.add(&start[..nodes])?;
        Ok(ExploreRoom {
            states,
            totals: Totals::new(),
            nodes: vec![in alloc; false; nodes]?,
            start: vec![in alloc; false; net.len() as usize]?,
            change: ChangeRoom::new(alloc, net)?,
        })
    }

    // Goes to the state with a number.
    pub(crate) fn go_to(&mut self, net: &Net, number: u32)
        requires room { IsExploreRoom net.now self.old }
        requires number { number < length self.old.states }
        requires long { length (state_at self.old.states number) ≡ length net.now.names }
        ensures room { IsExploreRoom net.now self.new }
        ensures nodes { self.new.nodes.items ≡ state_at self.old.states number }
        ensures start { self.new.start.items ≡ expansion_of net.now (state_at self.old.states number) }
        ensures states { self.new.states ≡ self.old.states }
        ensures totals { self.new.totals ≡ self.old.totals }
    {
        self.states.read(number, self.nodes.as_mut_slice());
        net.expand(self.nodes.as_slice(), self.start.as_mut_slice());
    }

    // Makes the change of a burst from the state, notes where it ends, and counts it.
    pub(crate) fn make(&mut self, making: &Making, burst: &[(u32, bool)]) -> Result<Made, Memory>
        requires making { CanBeMade making.now }
        requires room { IsExploreRoom making.now.net.now self.old }
        requires start { IsStableStart making.now.net.now self.old.start.items }
        requires burst { All (λ pair. pair.0 < making.now.net.now.inputs) burst.now }
        requires few { changes_in self.old.totals < most_changes }
        ensures room { IsExploreRoom making.now.net.now self.new }
        ensures made { IfOk result (IsMade making.now.net.now making.now.cap
            making.now.assumptions.now self.old.start.items burst.now self.old self.new) }
        ensures few { changes_in self.new.totals ≤ changes_in self.old.totals + 1 }
        ensures start { self.new.start ≡ self.old.start }
    {
        let classes = self.find(making, burst)?;
        let shown = is_shown(self.change.used.as_slice(), self.change.kept);
        let end = self.note_end(making.net, classes.is_clean & shown)?;
        Ok(Made { classes, end })
    }

    // Makes the change of a burst from the state, and returns the classes of the nodes.
    fn find(&mut self, making: &Making, burst: &[(u32, bool)]) -> Result<Classes, Memory>
        requires making { CanBeMade making.now }
        requires room { IsExploreRoom making.now.net.now self.old }
        requires start { IsStableStart making.now.net.now self.old.start.items }
        requires burst { All (λ pair. pair.0 < making.now.net.now.inputs) burst.now }
        ensures room { IsExploreRoom making.now.net.now self.new }
        ensures from { IsChangeFrom making.now.net.now self.old.start.items burst.now
            (change_of self.new.change) }
        ensures right { OnOk result (IsRightChange making.now.net.now making.now.cap
            making.now.assumptions.now (change_of self.new.change)) }
        ensures classes { IfOk result (λ classes. classes
            ≡ classes_of (node_classes making.now.net.now (change_of self.new.change))) }
        ensures states { self.new.states ≡ self.old.states }
        ensures totals { self.new.totals ≡ self.old.totals }
        ensures start { self.new.start ≡ self.old.start }
    {
        making.net.keeps_shape();
        self.change.begin(making.net, self.start.as_slice());
        self.change.take_input(making.net, burst);
        self.change.find(making)?;
        let nodes = making.net.circuit().nodes();
        Ok(count_classes(nodes, &self.change))
    }

    // Goes to where the change ends that was found last, adds that state to those that were found, and counts the change.
    fn note_end(&mut self, net: &Net, is_clean: bool) -> Result<End, Memory>
        requires room { IsExploreRoom net.now self.old }
        requires few { changes_in self.old.totals < most_changes }
        ensures room { IsExploreRoom net.now self.new }
        ensures noted { IfOk result
            (IsNoted net.now (change_of self.old.change) is_clean self.old self.new) }
        ensures few { changes_in self.new.totals ≤ changes_in self.old.totals + 1 }
        ensures used { self.new.change.used ≡ self.old.change.used }
        ensures kept { self.new.change.kept ≡ self.old.change.kept }
        ensures start { self.new.start ≡ self.old.start }
    {
        net.keeps_shape();
        self.change.go_on(net);
        if let Some(var) = self.change.stopped {
            self.totals.count_unsettled();
            return Ok(End::Unsettled(var));
        }
        let nodes = net.circuit().nodes() as usize;
        let place = note(&mut self.states, &self.change.start.as_slice()[..nodes])?;
        self.totals.count_settled(is_clean, place.is_some());
        Ok(End::Settled(place))
    }
}

// Whether a run that keeps the orders is shown, or there are none.
fn is_shown(orders: &[Order], kept: bool) -> bool
    ensures { result ≡ is_shown orders.now kept }
{
    orders.is_empty() || kept
}

// Adds a state to those that were found, if there is room for it, and returns its number.
fn note(states: &mut States, nodes: &[bool]) -> Result<Option<u32>, Memory>
    ensures states { OnOk result (states.new ≡ found_with states.old nodes.now) }
    ensures place { IfOk result (λ place. place ≡ state_number states.new nodes.now) }
{
    if states.len() >= MOST_STATES as usize {
        return Ok(states.find(nodes)?);
    }
    let added = states.add(nodes)?;
    Ok(Some(added.number))
}
