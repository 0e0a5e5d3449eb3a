//! An order of all gates.
ghost use Rattle.std.specs.Prelude.{◌≡◌, ◌+◌, ◌<◌, ◌≤◌, ◌++◌, ◌∷◌, ◌^◌, [], IfOk, OnOk, length, slice_set, true};
ghost use Rattle.hz_plane.specs.Orders.{IsOrderSoFar, HasAllGates};

use crate::classes::{is_gate, place_by_class};
use crate::search::{Order, search_loops};
use hz_core::Memory;
use hz_net::Net;
use std::alloc::Global;

/// All gates in an order, and places behind its loops, of which nothing is promised. Without feedback each gate stands after the gates
/// that it reads, and gates of one class together. With feedback each loop stands before all other gates that read its gates.
pub(crate) fn order_gates(alloc: Global, net: &Net) -> Result<Order, Memory>
    ensures gates { IfOk result (λ order. HasAllGates net.now order.gates.items) }
    ensures few { IfOk result (λ order. length order.gates.items < 2 ^ 32) }
{
    let circuit = net.circuit();
    net.keeps_shape();
    let mut placed = vec![in alloc; false; circuit.nodes() as usize]?;
    let mut gates = Vec::new(alloc);
    place_by_class(alloc, net, placed.as_mut_slice(), &mut gates)?;
    let found = search_loops(alloc, net, placed.as_slice(), gates.len())?;
    place_found(
        net,
        found.gates.as_slice(),
        placed.as_mut_slice(),
        &mut gates,
    )?;
    place_rest(net, placed.as_mut_slice(), &mut gates)?;
    Ok(Order {
        gates,
        ends: found.ends,
    })
}

// Appends of what was found the gates that are not placed yet.
fn place_found(
    net: &Net,
    found: &[u32],
    placed: &mut [bool],
    order: &mut Vec<u32>,
) -> Result<(), Memory>
    requires so_far { IsOrderSoFar net.now placed.old order.old.items }
    requires placed { length placed.old ≡ length net.now.names }
    ensures so_far { OnOk result (IsOrderSoFar net.now placed.new order.new.items) }
    ensures few { OnOk result
        (length order.new.items ≤ length order.old.items + length net.now.names) }
{
    for place in 0..net.circuit().nodes() {
        if let Some(gate) = found.get(place as usize) {
            place_new(net, *gate, placed, order)?;
        }
    }
    Ok(())
}

// Appends a gate, unless it is placed, or none.
fn place_new(net: &Net, gate: u32, placed: &mut [bool], order: &mut Vec<u32>) -> Result<(), Memory>
    requires so_far { IsOrderSoFar net.now placed.old order.old.items }
    requires placed { length placed.old ≡ length net.now.names }
    ensures so_far { OnOk result (IsOrderSoFar net.now placed.new order.new.items) }
    ensures few { OnOk result (length order.new.items ≤ length order.old.items + 1) }
{
    if !is_gate(net, gate) || placed[gate as usize] {
        return Ok(());
    }
    place(gate, placed, order)
}

/// Puts a gate at the end of the order.
pub(crate) fn place(gate: u32, placed: &mut [bool], order: &mut Vec<u32>) -> Result<(), Memory>
    requires { gate < length placed.old }
    ensures placed { placed.new ≡ slice_set placed.old gate true }
    ensures order { OnOk result (order.new.items ≡ order.old.items ++ gate ∷ []) }
{
    placed[gate as usize] = true;
    order.push(gate)?;
    Ok(())
}

// Appends the gates that are not placed yet.
fn place_rest(net: &Net, placed: &mut [bool], order: &mut Vec<u32>) -> Result<(), Memory>
    requires so_far { IsOrderSoFar net.now placed.old order.old.items }
    requires placed { length placed.old ≡ length net.now.names }
    ensures { OnOk result
        (HasAllGates net.now order.new.items × (length order.new.items + net.now.inputs
        ≤ length order.old.items + length net.now.names)) }
{
    let circuit = net.circuit();
    for gate in circuit.inputs()..circuit.nodes() {
        if !placed[gate as usize] {
            place(gate, placed, order)?;
        }
    }
    Ok(())
}
