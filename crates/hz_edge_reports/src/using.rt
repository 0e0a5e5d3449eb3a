//! The orders that are found by the assumptions of a script, of which a change uses some.
ghost use Rattle.std.specs.Prelude.{◌≤◌, All, IfOk, length};
ghost use Rattle.hz_net.specs.Network.{network_of, IsVariable};
ghost use Rattle.hz_orders.specs.Orders.{IsOrderOf};
ghost use Rattle.hz_timing.specs.declared.script.Assumption.TheVariants.{Ideal, Order as Assumed};
ghost use Rattle.hz_timing.specs.TimedText.{IsAssumptionOf};
ghost use Rattle.hz_edge_reports.specs.UsedOrders.{AreFound};
ghost use Rattle.hz_edge_reports.specs.Using.{AddsFound, IsKnown};

use hz_core::{Memory, Tri};
use hz_net::Net;
use hz_orders::{Order, OrderedChange, add_following, ideal_wires_keep, is_used, used_by_b};
use hz_timing::Assumption;
use hz_word::Word;
use std::alloc::Global;

// From so many orders on no more are found to follow: the time of tables and of a kept run grows with them.
const MOST_FOUND: usize = 2000;

/// A change with what is known of it without orders: the result of Algorithm B, and inductive words.
#[derive(Clone, Copy)]
pub(crate) struct Known<'a> {
    pub(crate) net: &'a Net,
    pub(crate) start: &'a [bool],
    pub(crate) input: &'a [bool],
    pub(crate) b: &'a [Tri],
    pub(crate) told: &'a [Word],
    pub(crate) cap: u64,
}

/// Finds the orders of a change by its assumptions, in their order. Returns how many are idle.
pub(crate) fn find_orders(
    alloc: Global,
    known: &Known,
    assumptions: &[Assumption],
    found: &mut Vec<Order>,
) -> Result<usize, Memory>
    requires known { IsKnown known.now }
    requires assumptions { All (IsAssumptionOf known.now.net.now) assumptions.now }
    ensures { IfOk result (λ idle. AreFound (network_of known.now.net.now) known.now.input.now
        known.now.start.now assumptions.now found.new.items idle) }
{
    found.clear();
    let mut idle = 0;
    for assumption in assumptions {
        idle += add_found(alloc, known, *assumption, found)?;
    }
    Ok(idle)
}

// Adds the orders by one assumption. Returns how many are idle: one or none.
fn add_found(
    alloc: Global,
    known: &Known,
    given: Assumption,
    found: &mut Vec<Order>,
) -> Result<usize, Memory>
    requires known { IsKnown known.now }
    requires given { IsAssumptionOf known.now.net.now given }
    ensures { IfOk result (AddsFound known.now given found.old.items found.new.items) }
{
    match given {
        Assumption::Order(order) => add_order(known, order, found),
        Assumption::Ideal(wire) => add_orders(alloc, known, wire, found),
    }
}

// Adds an order if its first wire must move. Else it is idle.
fn add_order(known: &Known, order: Order, found: &mut Vec<Order>) -> Result<usize, Memory>
    requires known { IsKnown known.now }
    requires order { IsOrderOf (network_of known.now.net.now) order }
    ensures { IfOk result (AddsFound known.now (Assumed order) found.old.items found.new.items) }
{
    used_by_b();
    if !is_used(order, known.start, known.b) {
        return Ok(1);
    }
    found.push(order)?;
    Ok(0)
}

// Adds the orders that follow from a wire without delay, unless many are found already. None is idle.
fn add_orders(
    alloc: Global,
    known: &Known,
    wire: u32,
    found: &mut Vec<Order>,
) -> Result<usize, Memory>
    requires known { IsKnown known.now }
    requires above { length known.now.net.now.names ≤ wire }
    requires below { IsVariable known.now.net.now wire }
    ensures { IfOk result (AddsFound known.now (Ideal wire) found.old.items found.new.items) }
{
    ideal_wires_keep();
    if found.len() >= MOST_FOUND {
        return Ok(0);
    }
    let change = OrderedChange {
        net: known.net,
        start: known.start,
        input: known.input,
        orders: &[],
        held: &[],
        cap: known.cap,
    };
    add_following(alloc, &change, known.told, wire, found)?;
    Ok(0)
}
