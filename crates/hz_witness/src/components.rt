//! The components of what moves: nodes that lie on a common cycle of moving nodes are in one component.
//!
//! The search goes from each node to the nodes that it reads, and keeps its way in a list, so it needs no recursion. It takes each wire
//! once. Nothing is promised of the numbers: who uses them checks what comes of them.

use crate::tables::{is_marked, number_at, set_number};
use hz_core::Memory;
use hz_net::{Net, VarKind};
use hz_reach::is_gate;
use std::alloc::Global;

// The search for components. Nodes are numbered from 1 as they are found.
#[derive(Drop)]
struct Search<'a> {
    net: &'a Net,
    moves: &'a [bool],
    found: Vec<u32>,
    // For each node the least number among the nodes to which the search leads back from it.
    back: Vec<u32>,
    // The wire of each node that is looked at next.
    next: Vec<u32>,
    // For each node the number of its component, from 1, or 0.
    component: Vec<u32>,
    // The nodes on the way, and those whose component is not complete.
    way: Vec<u32>,
    open: Vec<u32>,
    nodes: u32,
    components: u32,
}

/// The number of each node's component among the nodes that move, from 1 on, and 0 for a node that stays. The nodes that a node reads
/// have lesser numbers than it, or lie on a cycle with it.
pub fn components_of(alloc: Global, net: &Net, moves: &[bool]) -> Result<Vec<u32>, Memory> {
    let nodes = net.circuit().nodes();
    let mut search = Search {
        net,
        moves,
        found: vec![in alloc; 0; nodes as usize]?,
        back: vec![in alloc; 0; nodes as usize]?,
        next: vec![in alloc; 0; nodes as usize]?,
        component: vec![in alloc; 0; nodes as usize]?,
        way: Vec::new(alloc),
        open: Vec::new(alloc),
        nodes: 0,
        components: 0,
    };
    for node in 0..nodes {
        if is_marked(moves, node) && number_at(search.found.as_slice(), node) == 0 {
            search.enter(node)?;
            search.finish()?;
        }
    }
    Ok(search.component)
}

impl Search<'_> {
    // Goes on until the way is gone back.
    fn finish(&mut self) -> Result<(), Memory> {
        for _ in 0..usize::MAX {
            if !self.go_on()? {
                break;
            }
        }
        Ok(())
    }

    // Finds a node.
    fn enter(&mut self, node: u32) -> Result<(), Memory> {
        self.nodes = self.nodes.saturating_add(1);
        set_number(self.found.as_mut_slice(), node, self.nodes);
        set_number(self.back.as_mut_slice(), node, self.nodes);
        let (first, _) = wires(self.net, node);
        set_number(self.next.as_mut_slice(), node, first);
        self.way.push(node)?;
        self.open.push(node)?;
        Ok(())
    }

    // Looks at one wire of the last node on the way, or goes back. False if the way has no node.
    fn go_on(&mut self) -> Result<bool, Memory> {
        let Some(last) = self.way.last() else {
            return Ok(false);
        };
        let node = *last;
        let wire = number_at(self.next.as_slice(), node);
        let (_, end) = wires(self.net, node);
        if wire < end {
            set_number(self.next.as_mut_slice(), node, wire.saturating_add(1));
            self.look(node, source(self.net, wire))?;
        } else {
            self.leave(node);
        }
        Ok(true)
    }

    // Looks at a node that a node reads.
    fn look(&mut self, node: u32, read: u32) -> Result<(), Memory> {
        if !is_marked(self.moves, read) {
            return Ok(());
        }
        let number = number_at(self.found.as_slice(), read);
        if number == 0 {
            return self.enter(read);
        }
        if number_at(self.component.as_slice(), read) == 0 {
            self.lead_back(node, number);
        }
        Ok(())
    }

    // Notes that the search leads back from a node to the one with a number.
    fn lead_back(&mut self, node: u32, number: u32) {
        let least = number_at(self.back.as_slice(), node).min(number);
        set_number(self.back.as_mut_slice(), node, least);
    }

    // Goes back from a node.
    fn leave(&mut self, node: u32) {
        let _ = self.way.pop();
        let number = number_at(self.back.as_slice(), node);
        if number == number_at(self.found.as_slice(), node) {
            self.close(node);
        }
        if let Some(last) = self.way.last() {
            let before = *last;
            self.lead_back(before, number);
        }
    }

    // Closes the component whose first node this is.
    fn close(&mut self, node: u32) {
        self.components = self.components.saturating_add(1);
        for _ in 0..self.open.len() {
            let Some(top) = self.open.pop() else {
                break;
            };
            set_number(self.component.as_mut_slice(), top, self.components);
            if top == node {
                break;
            }
        }
    }
}

/// The wires of a gate: the first one, and the one behind the last. None for what is no gate.
pub(crate) fn wires(net: &Net, gate: u32) -> (u32, u32) {
    if gate >= net.len() || !is_gate(net, gate) {
        return (0, 0);
    }
    let (first, count) = net.wires_in(gate);
    (first, first + count)
}

/// The source of a wire, or 0 for what is none.
pub(crate) fn source(net: &Net, wire: u32) -> u32 {
    if wire >= net.len() {
        return 0;
    }
    match net.kind_of(wire) {
        VarKind::Wire { source, .. } => source,
        VarKind::Input { .. } => 0,
        VarKind::Gate { .. } => 0,
    }
}
