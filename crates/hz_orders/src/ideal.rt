//! The orders that follow from a wire being ideal, by words that are told while its source is held.
ghost use Rattle.std.specs.Prelude.{◌≡◌, ◌≢◌, ◌<◌, ◌≤◌, [], ◌∷◌, IfOk, IfSome, OnOk, length};
ghost use Rattle.hz_core.specs.Netlist.{IsCircuit, IsWhole};
ghost use Rattle.hz_net.specs.Network.{network_of, IsInput, IsVariable};
ghost use Rattle.hz_net.specs.Reads.{IsWireInto};
ghost use Rattle.hz_net.specs.Starts.{IsStableStart};
ghost use Rattle.hz_word.specs.Capped.{greatest_cap};
ghost use Rattle.hz_free.specs.Inductive.{IsInductive};
ghost use Rattle.hz_orders.specs.Inductive.{IsInductiveHolding};
ghost use Rattle.hz_orders.specs.Following.{AreHeldWords, FollowsFrom, GrowsByFollowing, IsWireOf};

use crate::order::Order;
use crate::telling::{OrderedChange, tell_under};
use hz_core::Memory;
use hz_net::{Net, VarKind};
use hz_word::{Count, Word};
use std::alloc::Global;

/// A wire, by its variable, with the gate that it goes into and the node that it comes from.
#[derive(Clone, Copy)]
pub(crate) struct WireEnds {
    pub(crate) wire: u32,
    pub(crate) gate: u32,
    pub(crate) source: u32,
}

/// Adds the orders that follow from a wire being ideal, given words that are inductive without orders. While the source of the wire is
/// held, each other wire of its gate changes at most so often, along the runs that keep the orders of the change. If that is less often
/// than it may change without orders, it does not change once more before the wire has changed.
///
/// The orders of the change must be kept anyhow: by these the orders are found. Which variables are held in the change plays no part.
pub fn add_following(
    alloc: Global,
    change: &OrderedChange,
    told: &[Word],
    wire: u32,
    found: &mut Vec<Order>,
) -> Result<(), Memory>
    requires start { IsStableStart change.now.net.now change.now.start.now }
    requires input { IsInput change.now.net.now change.now.input.now }
    requires cap_low { 1 ≤ change.now.cap }
    requires cap_high { change.now.cap ≤ greatest_cap }
    requires told { IsInductive (network_of change.now.net.now) change.now.input.now
        change.now.start.now change.now.cap told.now }
    requires above { length change.now.net.now.names ≤ wire }
    requires below { IsVariable change.now.net.now wire }
    ensures { OnOk result (GrowsByFollowing change.now wire found.old.items found.new.items) }
{
    change.net.keeps_shape();
    let ends = ends_of(change.net, wire);
    if !may_follow(change.net, told, ends) {
        return Ok(());
    }
    let words = words_holding(alloc, change, told, ends.source)?;
    add_orders(change, told, words.as_slice(), ends, found)
}

// Where a wire comes from, and the gate that it goes into.
fn ends_of(net: &Net, wire: u32) -> WireEnds
    requires circuit { IsCircuit net.now }
    requires whole { IsWhole net.now }
    requires above { length net.now.names ≤ wire }
    requires below { IsVariable net.now wire }
    ensures ends { IsWireOf net.now result }
    ensures wire { result.wire ≡ wire }
{
    match net.kind_of(wire) {
        VarKind::Wire { gate, source, .. } => WireEnds { wire, gate, source },
        VarKind::Gate { .. } => unreachable!(),
        VarKind::Input { .. } => unreachable!(),
    }
}

// Whether orders may follow from a wire: its source may move, and so may another wire of its gate. It saves words, and nothing rests on it.
fn may_follow(net: &Net, told: &[Word], ends: WireEnds) -> bool
    requires circuit { IsCircuit net.now }
    requires ends { IsWireOf net.now ends }
    requires told { length told.now ≡ length (network_of net.now) }
{
    if !moves(told, ends.source) {
        return false;
    }
    let (first, pins) = net.wires_in(ends.gate);
    for pin in 0..pins {
        let wire = first + pin;
        if wire != ends.wire && moves(told, wire) {
            return true;
        }
    }
    false
}

// Whether a variable may move.
fn moves(told: &[Word], var: u32) -> bool
    requires { var < length told.now }
{
    told[var as usize].changes != Count::Exact(0)
}

// Words of all variables while one is held.
fn words_holding(
    alloc: Global,
    change: &OrderedChange,
    told: &[Word],
    source: u32,
) -> Result<Vec<Word>, Memory>
    requires start { IsStableStart change.now.net.now change.now.start.now }
    requires input { IsInput change.now.net.now change.now.input.now }
    requires cap_low { 1 ≤ change.now.cap }
    requires cap_high { change.now.cap ≤ greatest_cap }
    requires told { IsInductive (network_of change.now.net.now) change.now.input.now
        change.now.start.now change.now.cap told.now }
    ensures { IfOk result (λ words. IsInductiveHolding (source ∷ []) change.now.orders.now
        (network_of change.now.net.now) change.now.input.now change.now.start.now change.now.cap
        words.items) }
{
    let held = [source];
    let holding = OrderedChange {
        net: change.net,
        start: change.start,
        input: change.input,
        orders: change.orders,
        held: &held,
        cap: change.cap,
    };
    let mut words = Vec::from_slice(alloc, told)?;
    tell_under(alloc, &holding, words.as_mut_slice())?;
    Ok(words)
}

// Adds the orders of a wire and the others of its gate, by words that are told while its source is held.
fn add_orders(
    change: &OrderedChange,
    told: &[Word],
    words: &[Word],
    ends: WireEnds,
    found: &mut Vec<Order>,
) -> Result<(), Memory>
    requires circuit { IsCircuit change.now.net.now }
    requires cap { change.now.cap ≤ greatest_cap }
    requires ends { IsWireOf change.now.net.now ends }
    requires words { AreHeldWords change.now ends words.now }
    requires told { length told.now ≡ length words.now }
    ensures { OnOk result (GrowsByFollowing change.now ends.wire found.old.items found.new.items) }
{
    let (first, pins) = change.net.wires_in(ends.gate);
    for pin in 0..pins {
        add_order(change, told, words, ends, first + pin, found)?;
    }
    Ok(())
}

// Adds the order of a wire and another one, if there is one.
fn add_order(
    change: &OrderedChange,
    told: &[Word],
    words: &[Word],
    ends: WireEnds,
    second: u32,
    found: &mut Vec<Order>,
) -> Result<(), Memory>
    requires cap { change.now.cap ≤ greatest_cap }
    requires ends { IsWireOf change.now.net.now ends }
    requires words { AreHeldWords change.now ends words.now }
    requires told { length told.now ≡ length words.now }
    requires second { IsVariable change.now.net.now second }
    requires into { IsWireInto (network_of change.now.net.now) ends.gate second }
    ensures { OnOk result (GrowsByFollowing change.now ends.wire found.old.items found.new.items) }
{
    let Some(order) = order_of(change, told, words, ends, second) else {
        return Ok(());
    };
    found.push(order)?;
    Ok(())
}

// The order of a wire and another one of its gate, if the other changes less often while the source is held.
fn order_of(
    _change: &OrderedChange,
    told: &[Word],
    words: &[Word],
    ends: WireEnds,
    second: u32,
) -> Option<Order>
    requires cap { _change.now.cap ≤ greatest_cap }
    requires ends { IsWireOf _change.now.net.now ends }
    requires words { AreHeldWords _change.now ends words.now }
    requires told { length told.now ≡ length words.now }
    requires second { IsVariable _change.now.net.now second }
    requires into { IsWireInto (network_of _change.now.net.now) ends.gate second }
    ensures { IfSome result (FollowsFrom _change.now ends.wire) }
{
    let Count::Exact(changes) = words[second as usize].changes else {
        return None;
    };
    if second == ends.wire || !is_more(told[second as usize].changes, changes) {
        return None;
    }
    Some(Order {
        first: ends.wire,
        second,
        nth: changes + 1,
    })
}

// Whether a number of changes is more than another.
fn is_more(count: Count, changes: u64) -> bool {
    match count {
        Count::Exact(count) => count > changes,
        Count::Many => true,
    }
}
