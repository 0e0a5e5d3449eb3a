//! The plan of a run in which as many gates as possible come back to their start, and then settle.
//!
//! The idea. Each gate that moves is turned once, by as few of its wires as turn it. Some gates can then be turned back by a wire that has
//! waited: all those wires go, then all these gates. From there each gate that has such a gate as its only turned pin, or needs all pins,
//! can be turned back too, so one run serves all.
//!
//! Nothing is promised of a plan: whatever is tried is a run.

use crate::components::wires;
use crate::moving::{Moving, NO_WIRE, Push};
use crate::tables::{is_marked, number_at, set_number};
use hz_core::{Memory, Tri};
use std::alloc::Global;

// The gates that can be turned back, those that begin first, and for each node the wire that turns it back after another one.
#[derive(Drop)]
struct Low {
    gates: Vec<u32>,
    by: Vec<u32>,
    listed: Vec<bool>,
}

// A plan in the making: what moves, in order, and how each gate is pushed.
#[derive(Drop)]
struct Planning<'a> {
    moving: Moving<'a>,
    order: Vec<u32>,
    pushes: Vec<Push>,
}

/// The plan.
pub(crate) fn plan_of(alloc: Global, moving: Moving) -> Result<Vec<u32>, Memory> {
    let planning = Planning {
        moving,
        order: order(alloc, &moving)?,
        pushes: pushes(alloc, &moving)?,
    };
    let low = planning.low(alloc)?;
    let mut plan = Vec::new(alloc);
    planning.turn_all(&low, &mut plan)?;
    planning.return_all(&low, &mut plan)?;
    settle(alloc, moving.results.when, &mut plan)?;
    Ok(plan)
}

// The nodes that move, in order.
fn order(alloc: Global, moving: &Moving) -> Result<Vec<u32>, Memory> {
    let mut keys = Vec::new(alloc);
    for node in 0..moving.change.net.circuit().nodes() {
        if moving.moves(node) {
            let (part, rank) = moving.key(node);
            keys.push((part, rank, node))?;
        }
    }
    keys.sort_unstable();
    let mut order = Vec::new(alloc);
    for (_, _, node) in &keys {
        order.push(*node)?;
    }
    Ok(order)
}

// How each gate is pushed.
fn pushes(alloc: Global, moving: &Moving) -> Result<Vec<Push>, Memory> {
    let mut pushes = Vec::new(alloc);
    for node in 0..moving.change.net.circuit().nodes() {
        pushes.push(moving.push_of(node))?;
    }
    Ok(pushes)
}

// Plans that variables take their last values, by the rounds in which they settle.
fn settle(alloc: Global, when: &[u32], plan: &mut Vec<u32>) -> Result<(), Memory> {
    let mut keys = Vec::new(alloc);
    let mut var = 0;
    for round in when {
        if *round > 0 {
            keys.push((*round, var))?;
        }
        var = u32::saturating_add(var, 1);
    }
    keys.sort_unstable();
    for (_, var) in &keys {
        plan.push(*var)?;
    }
    Ok(())
}

impl Planning<'_> {
    fn push_of(&self, node: u32) -> Push {
        match self.pushes.get(node as usize) {
            Some(push) => *push,
            None => Push::Any,
        }
    }

    // The gates that can be turned back.
    fn low(&self, alloc: Global) -> Result<Low, Memory> {
        let nodes = self.pushes.len();
        let mut low = Low {
            gates: Vec::new(alloc),
            by: vec![in alloc; NO_WIRE; nodes]?,
            listed: vec![in alloc; false; nodes]?,
        };
        for node in &self.order {
            if self.push_of(*node) == Push::Back {
                low.list(*node, NO_WIRE)?;
            }
        }
        for place in 0..nodes {
            if place >= low.gates.len() {
                break;
            }
            let gate = low.gates[place];
            self.follow(gate, &mut low)?;
        }
        Ok(low)
    }

    // Lists the gates that can be turned back after a gate.
    fn follow(&self, gate: u32, low: &mut Low) -> Result<(), Memory> {
        let net = self.moving.change.net;
        if gate >= net.len() {
            return Ok(());
        }
        for wire in net.readers(gate) {
            for reader in net.readers(*wire) {
                if self.moving.moves(*reader) && self.follows(*reader, gate) {
                    low.list(*reader, *wire)?;
                }
            }
        }
        Ok(())
    }

    // Whether a gate can be turned back after a gate that it reads.
    fn follows(&self, reader: u32, gate: u32) -> bool {
        self.push_of(reader) != Push::Any || self.moving.comes_before(gate, reader)
    }

    // Plans the inputs, and then the turn of each gate.
    fn turn_all(&self, low: &Low, plan: &mut Vec<u32>) -> Result<(), Memory> {
        let inputs = self.moving.change.net.circuit().inputs();
        for node in &self.order {
            if *node < inputs {
                plan.push(*node)?;
            }
        }
        for node in &self.order {
            if *node >= inputs {
                self.turn(*node, low.wire(*node), plan)?;
            }
        }
        Ok(())
    }

    // Plans the turn of a gate, by a wire if one is given.
    fn turn(&self, gate: u32, by: u32, plan: &mut Vec<u32>) -> Result<(), Memory> {
        let letter = self.moving.controlling(gate);
        match letter {
            Some(letter) if self.push_of(gate) != Push::Any => {
                self.turn_by_all(gate, letter, plan)?;
            }
            _ if by == NO_WIRE => plan.push(self.moving.opening(gate))?,
            _ => plan.push(by)?,
        }
        plan.push(gate)?;
        Ok(())
    }

    // Plans all wires of a gate that move and begin with a letter.
    fn turn_by_all(&self, gate: u32, letter: bool, plan: &mut Vec<u32>) -> Result<(), Memory> {
        let (first, end) = wires(self.moving.change.net, gate);
        for wire in first..end {
            if self.moving.moves(wire) && self.moving.begins(wire) == letter {
                plan.push(wire)?;
            }
        }
        Ok(())
    }

    // Plans that all gates that can be turned back are.
    fn return_all(&self, low: &Low, plan: &mut Vec<u32>) -> Result<(), Memory> {
        for gate in &low.gates {
            if low.wire(*gate) == NO_WIRE {
                plan.push(self.moving.closing(*gate))?;
            }
        }
        for gate in &low.gates {
            if low.wire(*gate) != NO_WIRE {
                plan.push(low.wire(*gate))?;
            }
            plan.push(*gate)?;
        }
        Ok(())
    }
}

impl Low {
    // Lists a gate that is not listed.
    fn list(&mut self, gate: u32, by: u32) -> Result<(), Memory> {
        let place = gate as usize;
        if place >= self.listed.len() || is_marked(self.listed.as_slice(), gate) {
            return Ok(());
        }
        self.gates.push(gate)?;
        self.listed[place] = true;
        set_number(self.by.as_mut_slice(), gate, by);
        Ok(())
    }

    // The wire that turns a gate back after another one.
    fn wire(&self, gate: u32) -> u32 {
        number_at(self.by.as_slice(), gate)
    }
}
