//! Which gates read each node, by their places in an order.
ghost use Rattle.std.specs.Prelude.{◌≡◌, ℕ, ◌<◌, ◌≤◌, ◌^◌, ◌++◌, ◌∷◌, [], All, Contains, IfOk, OnOk, length, map, replicate, slice_set, slice_index};
ghost use Rattle.hz_core.specs.Netlist.{IsGateNumber, gate_at};
ghost use Rattle.hz_plane.specs.Sweeps.{AreReaders, IsOrder, IsBack, readers_at};
ghost use Rattle.hz_plane.specs.Orders.{HasAllGates};

use crate::copies::copy_of;
use crate::lists::Lists;
use hz_core::Memory;
use hz_net::Net;
use smallvec::SmallVec;
use std::alloc::Global;

// A list while it grows. Few are longer.
type List = SmallVec<u32, 4>;

/// For each node the places of the gates that read it.
pub(crate) fn list_by_node(alloc: Global, net: &Net, order: &[u32]) -> Result<Lists, Memory>
    requires order { HasAllGates net.now order.now }
    requires few { length order.now < 2 ^ 32 }
    ensures { IfOk result (AreReaders net.now order.now) }
{
    let mut lists = empty_lists(alloc, net.circuit().nodes())?;
    file_places(net, order, lists.as_mut_slice())?;
    Lists::of(alloc, lists.as_slice())
}

// So many empty lists.
fn empty_lists(alloc: Global, count: u32) -> Result<Vec<List>, Memory>
    ensures { IfOk result (λ lists. map (λ list. list.items) lists.items ≡ replicate count []) }
{
    let mut lists = Vec::with_capacity(alloc, count as usize)?;
    for _list in 0..count {
        lists.push(SmallVec::new(alloc))?;
    }
    Ok(lists)
}

// Puts each place of an order into the lists of the sources of its gate.
fn file_places(net: &Net, order: &[u32], lists: &mut [List]) -> Result<(), Memory>
    requires order { HasAllGates net.now order.now }
    requires few { length order.now < 2 ^ 32 }
    requires lists { map (λ list. list.items) lists.old ≡ replicate (length net.now.names) [] }
    ensures { OnOk result (AreReaders net.now order.now (map (λ list. list.items) lists.new)) }
{
    for place in 0..order.len() {
        file_place(net, order[place], place as u32, lists)?;
    }
    Ok(())
}

// Puts the place of a gate into the lists of its sources.
fn file_place(net: &Net, gate: u32, place: u32, lists: &mut [List]) -> Result<(), Memory>
    requires gate { IsGateNumber net.now gate }
    requires lists { length lists.old ≡ length net.now.names }
    ensures inside { OnOk result
        ((end node : ℕ)
        → All (λ reader. reader < end) (readers_at (map (λ list. list.items) lists.old) node)
        → place < end
        → All (λ reader. reader < end) (readers_at (map (λ list. list.items) lists.new) node)) }
    ensures kept { OnOk result
        ((node reader : ℕ)
        → Contains (readers_at (map (λ list. list.items) lists.old) node) reader
        → Contains (readers_at (map (λ list. list.items) lists.new) node) reader) }
    ensures filed { OnOk result
        ((source : ℕ) → Contains (gate_at net.now gate).sources source
        → Contains (readers_at (map (λ list. list.items) lists.new) source) place) }
{
    for source in net.circuit().sources(gate) {
        file(lists, *source, place)?;
    }
    Ok(())
}

// Puts a place into the list of a node, after those that are there.
fn file(lists: &mut [List], node: u32, place: u32) -> Result<(), Memory>
    requires { node < length lists.old }
    ensures { OnOk result
        (map (λ list. list.items) lists.new
        ≡ slice_set (map (λ list. list.items) lists.old) node
        (readers_at (map (λ list. list.items) lists.old) node ++ place ∷ [])) }
{
    let list = &mut lists[node as usize];
    list.push(place)?;
    Ok(())
}

/// For each place the places of the gates that read its gate. No place has an input, so inputs take no room here.
pub(crate) fn list_readers(
    alloc: Global,
    net: &Net,
    order: &[u32],
    by_node: &Lists,
) -> Result<Lists, Memory>
    requires { AreReaders net.now order.now by_node.now }
    ensures { IfOk result (IsOrder net.now order.now) }
{
    let lists = all_readers(alloc, net, order, by_node)?;
    Lists::of(alloc, lists.as_slice())
}

// The same, each list by itself.
fn all_readers(
    alloc: Global,
    net: &Net,
    order: &[u32],
    by_node: &Lists,
) -> Result<Vec<List>, Memory>
    requires order { AreReaders net.now order.now by_node.now }
    ensures { IfOk result
        (λ lists. IsOrder net.now order.now (map (λ list. list.items) lists.items)) }
{
    net.keeps_shape();
    let mut lists = Vec::with_capacity(alloc, order.len())?;
    for place in 0..order.len() {
        let list = copy_of(alloc, by_node.at(order[place] as usize))?;
        lists.push(list)?;
    }
    Ok(lists)
}

/// For each place the places up to it of the gates that read its gate.
pub(crate) fn list_back(
    alloc: Global,
    net: &Net,
    order: &[u32],
    by_node: &Lists,
) -> Result<Lists, Memory>
    requires { AreReaders net.now order.now by_node.now }
    ensures { IfOk result (IsBack net.now order.now) }
{
    let lists = all_back(alloc, net, order, by_node)?;
    Lists::of(alloc, lists.as_slice())
}

// The same, each list by itself.
fn all_back(alloc: Global, net: &Net, order: &[u32], readers: &Lists) -> Result<Vec<List>, Memory>
    requires order { AreReaders net.now order.now readers.now }
    ensures { IfOk result
        (λ lists. IsBack net.now order.now (map (λ list. list.items) lists.items)) }
{
    net.keeps_shape();
    let mut lists = Vec::with_capacity(alloc, order.len())?;
    for place in 0..order.len() {
        let list = places_up_to(alloc, place, readers.at(order[place] as usize))?;
        lists.push(list)?;
    }
    Ok(lists)
}

// The places of a list that are no later than a place.
fn places_up_to(alloc: Global, place: usize, places: &[u32]) -> Result<List, Memory>
    ensures inside { IfOk result
        (λ list. (end : ℕ) → All (λ reader. reader < end) places.now
        → All (λ reader. reader < end) list.items) }
    ensures reads { IfOk result
        (λ list. (reader : ℕ) → reader ≤ place → Contains places.now reader
        → Contains list.items reader) }
{
    let mut list = SmallVec::new(alloc);
    for reader in places {
        if *reader as usize <= place {
            list.push(*reader)?;
        }
    }
    Ok(list)
}
