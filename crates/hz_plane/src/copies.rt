//! The kind and the pins of the gate at each place of an order, copied, so that a pass reads them one after the other.
ghost use Rattle.std.specs.Prelude.{◌≡◌, All, IfOk, map};
ghost use Rattle.hz_core.specs.Netlist.{IsGateNumber};
ghost use Rattle.hz_plane.specs.Forward.{kinds_at, pins_at};

use crate::lists::Lists;
use hz_core::{Kind, Memory};
use hz_net::Net;
use smallvec::SmallVec;
use std::alloc::Global;

/// The kinds of the gates of an order.
pub(crate) fn list_kinds(alloc: Global, net: &Net, order: &[u32]) -> Result<Vec<Kind>, Memory>
    requires { All (IsGateNumber net.now) order.now }
    ensures { IfOk result (λ kinds. kinds.items ≡ kinds_at net.now order.now) }
{
    let mut kinds = Vec::with_capacity(alloc, order.len())?;
    for place in 0..order.len() {
        let kind = net.circuit().kind(order[place]);
        kinds.push(kind)?;
    }
    Ok(kinds)
}

/// The nodes that the gates of an order read.
pub(crate) fn list_pins(alloc: Global, net: &Net, order: &[u32]) -> Result<Lists, Memory>
    requires { All (IsGateNumber net.now) order.now }
    ensures { IfOk result (λ pins. pins ≡ pins_at net.now order.now) }
{
    let lists = all_pins(alloc, net, order)?;
    Lists::of(alloc, lists.as_slice())
}

// The same, each list by itself.
fn all_pins(alloc: Global, net: &Net, order: &[u32]) -> Result<Vec<SmallVec<u32, 4>>, Memory>
    requires { All (IsGateNumber net.now) order.now }
    ensures { IfOk result
        (λ lists. map (λ list. list.items) lists.items ≡ pins_at net.now order.now) }
{
    let mut lists = Vec::with_capacity(alloc, order.len())?;
    for place in 0..order.len() {
        let list = copy_of(alloc, net.circuit().sources(order[place]))?;
        lists.push(list)?;
    }
    Ok(lists)
}

/// A list of the same numbers.
#[tactic(auto, using(std::proofs::lemmas::List::take_more))]
pub(crate) fn copy_of(alloc: Global, numbers: &[u32]) -> Result<SmallVec<u32, 4>, Memory>
    ensures { IfOk result (λ list. list.items ≡ numbers.now) }
{
    let mut list = SmallVec::new(alloc);
    for number in numbers {
        list.push(*number)?;
    }
    Ok(list)
}
