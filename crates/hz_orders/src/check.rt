//! Whether a run keeps orders. It counts how often each variable has changed, and looks at the orders whenever a variable changes that is
//! the second wire of one.
ghost use Rattle.std.specs.Prelude.{◌≡◌, ◌+◌, ◌<◌, ◌≤◌, ◌⊎◌, ℕ, false, [], ◌∷◌, length, All, IfOk, IsTrue, slice_index_or};
ghost use Rattle.hz_lists.specs.Listed.{is_listed, IsRepeatFree};
ghost use Rattle.hz_net.specs.Network.{bit_at};
ghost use Rattle.hz_reach.specs.Spread.{changes_in};
ghost use Rattle.hz_orders.specs.Counted.{IsNoted, KeepsByCounts, KeepsUpTo};

use crate::Order;
use crate::tables::{is_marked, number_at, set_mark};
use hz_core::Memory;
use hz_gmw::Run;
use std::alloc::Global;

/// Which variables are the second wires of orders. The check looks whether it is right.
pub(crate) fn second_wires(
    alloc: Global,
    variables: u32,
    orders: &[Order],
) -> Result<Vec<bool>, Memory> {
    let mut marks = vec![in alloc; false; variables as usize]?;
    for order in orders {
        set_mark(marks.as_mut_slice(), order.second, true);
    }
    Ok(marks)
}

/// Whether a run keeps orders, given marks on their second wires. It counts how often the run changes each variable.
pub(crate) fn keeps_orders(run: &Run, orders: &[Order], marks: &[bool], counts: &mut [u32]) -> bool
    requires once { All IsRepeatFree run.now.steps }
    requires inside { All (All (λ var. var < length counts.old)) run.now.steps }
    ensures kept { IsTrue result →
        All (λ order. KeepsUpTo (length run.now.steps) run.now.steps order) orders.now }
    ensures noted { IsTrue result → All (IsNoted (length counts.old) marks.now) orders.now }
    ensures counts { IsTrue result → (i : ℕ) → i < length counts.old →
        slice_index_or counts.new i 0 ≡ changes_in run.now.steps i }
{
    counts.fill(0);
    if !are_noted(orders, counts.len(), marks) {
        return false;
    }
    if !are_kept(orders, counts) {
        return false;
    }
    for number in 0..run.steps() {
        let flips = run.step(number);
        if !count_step(flips, counts) {
            return false;
        }
        if !step_keeps(orders, marks, flips, counts) {
            return false;
        }
    }
    true
}

// Whether the wires of all orders are variables, and their second wires are marked.
fn are_noted(orders: &[Order], variables: usize, marks: &[bool]) -> bool
    ensures { IsTrue result → All (IsNoted variables marks.now) orders.now }
{
    orders
        .iter()
        .all(|order| is_noted(*order, variables, marks))
}

// Whether the wires of an order are variables, and the second is marked.
fn is_noted(order: Order, variables: usize, marks: &[bool]) -> bool
    ensures { IsTrue result → IsNoted variables marks.now order }
{
    (order.first as usize) < variables
        && (order.second as usize) < variables
        && is_marked(marks, order.second)
}

// Counts one more change of each variable of a step. False if there are too many.
fn count_step(flips: &[u32], counts: &mut [u32]) -> bool
    requires once { IsRepeatFree flips.now }
    requires inside { All (λ var. var < length counts.old) flips.now }
    ensures { IsTrue result → (i : ℕ) → i < length counts.old →
        slice_index_or counts.new i 0
        ≡ slice_index_or counts.old i 0 + changes_in (flips.now ∷ []) i }
{
    for var in flips {
        let place = *var as usize;
        let Some(more) = counts[place].checked_add(1) else {
            return false;
        };
        counts[place] = more;
    }
    true
}

// Whether orders are kept after a step, if they were before it. If no marked variable changes, all of them are.
fn step_keeps(orders: &[Order], marks: &[bool], flips: &[u32], counts: &[u32]) -> bool
    ensures { IsTrue result → (All (λ var. bit_at marks.now var ≡ false) flips.now)
        ⊎ (All (KeepsByCounts counts.now) orders.now) }
{
    if !touches(marks, flips) {
        return true;
    }
    are_kept(orders, counts)
}

// Whether one of some variables is marked.
fn touches(marks: &[bool], flips: &[u32]) -> bool
    ensures { result ≡ false → All (λ var. bit_at marks.now var ≡ false) flips.now }
{
    flips.iter().any(|var| is_marked(marks, *var))
}

// Whether all orders are kept where variables have changed so often.
fn are_kept(orders: &[Order], counts: &[u32]) -> bool
    ensures { IsTrue result → All (KeepsByCounts counts.now) orders.now }
{
    orders.iter().all(|order| is_kept(*order, counts))
}

// Whether an order is kept where variables have changed so often.
fn is_kept(order: Order, counts: &[u32]) -> bool
    ensures { IsTrue result → KeepsByCounts counts.now order }
{
    u64::from(number_at(counts, order.second)) < order.nth || number_at(counts, order.first) >= 1
}
