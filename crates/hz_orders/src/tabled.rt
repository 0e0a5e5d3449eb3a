//! The orders by which gates go: those whose gate has a table.
ghost use Rattle.std.specs.Prelude.{◌≡◌, IfOk, OnOk, IsTrue, length};
ghost use Rattle.hz_net.specs.Network.{network_of};
ghost use Rattle.hz_orders.specs.Tabled.{AddsTabled, AreTabled, HasTableAt};

use crate::order::Order;
use crate::table::have_table;
use hz_core::Memory;
use hz_net::{Net, VarKind};
use hz_word::Word;
use std::alloc::Global;

/// The orders of a list whose gates have tables, by the words that are told.
pub fn with_tables(
    alloc: Global,
    net: &Net,
    told: &[Word],
    orders: &[Order],
) -> Result<Vec<Order>, Memory>
    requires { length told.now ≡ length (network_of net.now) }
    ensures { IfOk result (λ tabled. AreTabled (network_of net.now) told.now orders.now tabled.items) }
{
    let mut tabled = Vec::new(alloc);
    for order in orders {
        add_tabled(net, told, *order, &mut tabled)?;
    }
    Ok(tabled)
}

// Adds an order if its gate has a table.
fn add_tabled(net: &Net, told: &[Word], order: Order, tabled: &mut Vec<Order>) -> Result<(), Memory>
    requires { length told.now ≡ length (network_of net.now) }
    ensures { OnOk result (AddsTabled (network_of net.now) told.now order tabled.old.items tabled.new.items) }
{
    if !has_table(net, told, order) {
        return Ok(());
    }
    tabled.push(order)?;
    Ok(())
}

// Whether the gate of an order has a table by the words that its wires are told. If it has none, the gate is bounded as without orders.
fn has_table(net: &Net, told: &[Word], order: Order) -> bool
    requires { length told.now ≡ length (network_of net.now) }
    ensures some { IsTrue result → HasTableAt (network_of net.now) told.now order }
    ensures none { HasTableAt (network_of net.now) told.now order → IsTrue result }
{
    net.keeps_shape();
    if order.first >= net.len() {
        return false;
    }
    match net.kind_of(order.first) {
        VarKind::Wire { gate, .. } => {
            let (wire, count) = net.wires_in(gate);
            have_table(&told[wire as usize..(wire + count) as usize])
        }
        VarKind::Input { .. } => false,
        VarKind::Gate { .. } => false,
    }
}
