//! The order in which words are raised: component by component of what moves, so that what stands behind a cycle is told when the cycle is
//! done. The order decides how many words stay exact, and nothing is promised of it.
ghost use Rattle.std.specs.Prelude.{◌≡◌, length, OnOk};
ghost use Rattle.hz_net.specs.Network.{network_of};
ghost use Rattle.hz_orders.specs.Telling.{AreToldSoFar, CanBeTold};

use crate::telling::{Telling, raise};
use hz_core::Memory;
use hz_net::VarKind;
use hz_witness::components_of;
use hz_word::{Count, Word};
use std::alloc::Global;

/// The variables that may move, by words that are told without orders, but for those that are held: each with the number of its component,
/// by that and then by variable.
pub(crate) fn by_component(
    alloc: Global,
    telling: &Telling,
    told: &[Word],
) -> Result<Vec<(u32, u32)>, Memory> {
    let mut moves = Vec::new(alloc);
    for var in 0..telling.net.len() {
        moves.push(may_move(telling, told, var))?;
    }
    let parts = components_of(alloc, telling.net, moves.as_slice())?;
    let mut order = Vec::new(alloc);
    for var in 0..telling.net.len() {
        if may_move(telling, told, var) {
            order.push((part_of(telling, parts.as_slice(), var), var))?;
        }
    }
    order.sort_unstable();
    Ok(order)
}

// Whether a variable may move.
fn may_move(telling: &Telling, told: &[Word], var: u32) -> bool {
    match told.get(var as usize) {
        Some(word) => word.changes != Count::Exact(0) && !telling.held.contains(&var),
        None => false,
    }
}

// The component of a variable. A wire is in that of the gate that reads it, or in that of its source if the gate stays.
fn part_of(telling: &Telling, parts: &[u32], var: u32) -> u32 {
    if var >= telling.net.len() {
        return 0;
    }
    match telling.net.kind_of(var) {
        VarKind::Wire { gate, source, .. } => match part_at(parts, gate) {
            0 => part_at(parts, source),
            part => part,
        },
        VarKind::Input { .. } => part_at(parts, var),
        VarKind::Gate { .. } => part_at(parts, var),
    }
}

// The component of a node, or 0.
fn part_at(parts: &[u32], node: u32) -> u32 {
    match parts.get(node as usize) {
        Some(part) => *part,
        None => 0,
    }
}

/// Raises words in this order, those of a component until each is enough.
pub(crate) fn raise_in_order(
    alloc: Global,
    telling: &Telling,
    order: &Vec<(u32, u32)>,
    told: &mut [Word],
) -> Result<(), Memory>
    requires telling { CanBeTold telling.now }
    requires told { AreToldSoFar telling.now told.old }
    ensures { AreToldSoFar telling.now told.new }
{
    let mut raising = Raising {
        parts: vec![in alloc; 0; telling.net.len() as usize]?,
        rises: vec![in alloc; 0; telling.net.len() as usize]?,
        due: Vec::new(alloc),
        waits: vec![in alloc; false; telling.net.len() as usize]?,
        part: 0,
    };
    for (part, var) in order {
        raising.note(*part, *var);
    }
    for (part, var) in order {
        if *part != raising.part {
            raising.raise_due(alloc, telling, told)?;
            raising.part = *part;
        }
        raising.add(*var)?;
    }
    raising.raise_due(alloc, telling, told)
}

// What is due in a component, how often each word has grown, and the component of each variable.
#[derive(Drop)]
struct Raising {
    parts: Vec<u32>,
    rises: Vec<u8>,
    due: Vec<u32>,
    waits: Vec<bool>,
    part: u32,
}

impl Raising {
    // Notes the component of a variable.
    fn note(&mut self, part: u32, var: u32) {
        let place = var as usize;
        if place < self.parts.len() {
            self.parts[place] = part;
        }
    }

    // Raises what is due, and what reads what was raised in the same component, as often as it takes.
    fn raise_due(
        &mut self,
        alloc: Global,
        telling: &Telling,
        told: &mut [Word],
    ) -> Result<(), Memory>
        requires telling { CanBeTold telling.now }
        requires told { AreToldSoFar telling.now told.old }
        ensures { AreToldSoFar telling.now told.new }
    {
        for place in 0..usize::MAX {
            if place >= self.due.len() {
                break;
            }
            let var = self.due[place];
            self.take(var);
            self.raise_one(alloc, telling, told, var)?;
        }
        self.due.clear();
        Ok(())
    }

    // Raises the word of a variable. If it grows, what reads the variable is due.
    fn raise_one(
        &mut self,
        alloc: Global,
        telling: &Telling,
        told: &mut [Word],
        var: u32,
    ) -> Result<(), Memory>
        requires telling { CanBeTold telling.now }
        requires told { AreToldSoFar telling.now told.old }
        ensures { AreToldSoFar telling.now told.new }
    {
        if var >= telling.net.len() || self.rises.len() != told.len() {
            return Ok(());
        }
        if raise(alloc, telling, self.rises.as_mut_slice(), told, var)? {
            self.add_readers(telling, var)?;
        }
        Ok(())
    }

    // What reads a variable in the same component is due.
    fn add_readers(&mut self, telling: &Telling, var: u32) -> Result<(), Memory> {
        if var >= telling.net.len() {
            return Ok(());
        }
        for reader in telling.net.readers(var) {
            if let Some(part) = self.parts.get(*reader as usize)
                && *part == self.part
            {
                self.add(*reader)?;
            }
        }
        Ok(())
    }

    // A variable is due, once as long as it waits.
    fn add(&mut self, var: u32) -> Result<(), Memory> {
        let place = var as usize;
        if place < self.waits.len() && !self.waits[place] {
            self.waits[place] = true;
            self.due.push(var)?;
        }
        Ok(())
    }

    // A variable waits no more.
    fn take(&mut self, var: u32) {
        let place = var as usize;
        if place < self.waits.len() {
            self.waits[place] = false;
        }
    }
}
