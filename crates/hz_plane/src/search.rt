//! The loops of a network, found depth first, so that each comes to rest before what stands behind it. `batch` on 8 times the least waves
//! of `bench/doubling` takes 1,011 million instructions so, and 12,848 if all gates come to rest together.
//!
//! The search goes from each gate to those that it reads, and keeps its way in a list, so it needs no recursion. Nothing is promised of
//! what is found: `order` takes of it what makes an order.
ghost use Rattle.hz_core.specs.Netlist.{IsGateNumber};

use crate::classes::is_gate;
use hz_core::Memory;
use hz_net::Net;
use std::alloc::Global;

/// Gates in an order, and places in it: each stands behind a loop, or behind several short ones.
#[derive(Debug, Drop)]
pub(crate) struct Order {
    pub(crate) gates: Vec<u32>,
    pub(crate) ends: Vec<usize>,
}

// A gate on the way, its number, the pin that is looked at next, and how many gates waited when it was found.
#[derive(Clone, Copy, Debug)]
struct Step {
    gate: u32,
    number: u32,
    pin: usize,
    waited: usize,
}

// Gates are numbered from 1 as they are found.
#[derive(Debug, Drop)]
struct Search {
    way: Vec<Step>,
    // For each node 0 before it is found, then the least number to which it leads back, and the greatest number once it is listed.
    back: Vec<u32>,
    // The gates that were left, but whose loop is not whole.
    waiting: Vec<u32>,
    listed: Order,
    placed: usize,
    // Where the last end is, and whether a loop stands behind it.
    begin: usize,
    is_open: bool,
    count: u32,
}

/// The gates that are not placed, each after what it reads, but where this would lead back to it. The gates of a loop stand together,
/// before all other gates that read them. The ends are places behind those that are placed.
pub(crate) fn search_loops(
    alloc: Global,
    net: &Net,
    placed: &[bool],
    count: usize,
) -> Result<Order, Memory> {
    let mut search = Search {
        way: Vec::new(alloc),
        back: known(alloc, net, placed)?,
        waiting: Vec::new(alloc),
        listed: Order {
            gates: Vec::with_capacity(alloc, placed.len())?,
            ends: Vec::new(alloc),
        },
        placed: count,
        begin: count,
        is_open: false,
        count: 0,
    };
    for gate in 0..net.circuit().nodes() {
        if search.back_of(gate) == 0 {
            search.enter(gate)?;
            search.finish(net)?;
        }
    }
    Ok(search.listed)
}

// The greatest number for each node that is no gate or is placed, else 0.
fn known(alloc: Global, net: &Net, placed: &[bool]) -> Result<Vec<u32>, Memory> {
    let inputs = net.circuit().inputs() as usize;
    let mut known = Vec::with_capacity(alloc, placed.len())?;
    for node in 0..placed.len() {
        known.push(if node < inputs || placed[node] {
            u32::MAX
        } else {
            0
        })?;
    }
    Ok(known)
}

impl Search {
    // Goes on until the way is gone back.
    fn finish(&mut self, net: &Net) -> Result<(), Memory> {
        for _turn in 0..usize::MAX {
            let Some(step) = self.way.pop() else {
                break;
            };
            if is_gate(net, step.gate) {
                self.turn(net, step)?;
            }
        }
        Ok(())
    }

    // The number to which a node leads back.
    fn back_of(&self, node: u32) -> u32 {
        match self.back.get(node as usize) {
            Some(number) => *number,
            None => u32::MAX,
        }
    }

    fn set_back(&mut self, node: u32, number: u32) {
        let place = node as usize;
        if place < self.back.len() {
            self.back[place] = number;
        }
    }

    // Finds a gate.
    fn enter(&mut self, gate: u32) -> Result<(), Memory> {
        self.count = self.count.saturating_add(1);
        self.set_back(gate, self.count);
        self.way.push(Step {
            gate,
            number: self.count,
            pin: 0,
            waited: self.waiting.len(),
        })?;
        Ok(())
    }

    // Looks at the pins of a gate that are left: enters the first source that is not found, or, if there is none, leaves the gate.
    fn turn(&mut self, net: &Net, step: Step) -> Result<(), Memory>
        requires { IsGateNumber net.now step.gate }
    {
        let sources = net.circuit().sources(step.gate);
        let mut back = self.back_of(step.gate);
        for pin in step.pin..sources.len() {
            let number = self.back_of(sources[pin]);
            if number == 0 {
                self.set_back(step.gate, back);
                self.way.push(Step { pin, ..step })?;
                return self.enter(sources[pin]);
            }
            back = back.min(number);
        }
        self.set_back(step.gate, back);
        self.waiting.push(step.gate)?;
        if back < step.number {
            return Ok(());
        }
        self.close(step, sources.contains(&step.gate))
    }

    // Lists a gate with what has waited since it was found: they are one loop, if there are others or it reads itself. Loops that follow
    // each other end together, until they have 64 gates.
    fn close(&mut self, step: Step, reads_itself: bool) -> Result<(), Memory> {
        let is_loop = reads_itself || self.waiting.len() > step.waited.saturating_add(1);
        let place = self.placed.saturating_add(self.listed.gates.len());
        if self.is_open && (!is_loop || place.saturating_sub(self.begin) >= 64) {
            self.listed.ends.push(place)?;
            self.begin = place;
            self.is_open = false;
        }
        self.is_open = self.is_open || is_loop;
        self.list(step.waited)
    }

    // Lists the gates that wait, from a place on.
    fn list(&mut self, from: usize) -> Result<(), Memory> {
        for place in from..self.waiting.len() {
            if let Some(gate) = self.waiting.get(place) {
                let gate = *gate;
                self.set_back(gate, u32::MAX);
                self.listed.gates.push(gate)?;
            }
        }
        self.waiting.truncate(from);
        Ok(())
    }
}
