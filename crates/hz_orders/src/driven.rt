//! How many changes are enough for a variable by the words that are told, and whether what it is told is enough.
ghost use Rattle.std.specs.Prelude.{◌≡◌, ◌+◌, ◌≤◌, List, IfOk, IsTrue, length, slice_range};
ghost use Rattle.hz_core.specs.Gate.{takes};
ghost use Rattle.hz_net.specs.Network.{network_of, IsVariable};
ghost use Rattle.hz_lists.specs.Listed.{is_listed};
ghost use Rattle.hz_word.specs.Capped.{IsAtMost, IsWithinCap};
ghost use Rattle.hz_orders.specs.Parts.{IsBoundUnder};
ghost use Rattle.hz_orders.specs.Inductive.{IsInductiveHolding};
ghost use Rattle.hz_orders.specs.declared.order.Order.{Order};
ghost use Rattle.hz_orders.specs.Positions.{HaveTable};
ghost use Rattle.hz_orders.specs.Tabled.{AreTabled, HoldAlike};
ghost use Rattle.hz_orders.specs.Telling.{input_count, AreToldSoFar, CanBeTold, IsEnoughFor, IsToldEnough};
ghost use Rattle.hz_free.specs.Inductive.{AreCounted};

use crate::table::{OrderedGate, count_under};
use crate::telling::Telling;
use hz_core::{Kind, Memory};
use hz_net::VarKind;
use hz_word::{Count, Word, fold};
use std::alloc::Global;

/// Whether a number of changes is at most another.
pub(crate) fn is_at_most(less: Count, more: Count) -> bool
    ensures { IsTrue result → IsAtMost less more }
{
    match (less, more) {
        (Count::Exact(less), Count::Exact(more)) => less <= more,
        (Count::Many, Count::Exact(_)) => false,
        (Count::Exact(_), Count::Many) => true,
        (Count::Many, Count::Many) => true,
    }
}

/// A number of changes that is enough for a variable by the words that are told.
pub(crate) fn enough_for(
    alloc: Global,
    telling: &Telling,
    told: &[Word],
    var: u32,
) -> Result<Count, Memory>
    requires telling { CanBeTold telling.now }
    requires told { AreToldSoFar telling.now told.now }
    requires var { IsVariable telling.now.net.now var }
    ensures enough { IfOk result (λ count. IsEnoughFor telling.now told.now var count) }
    ensures counted { IfOk result (λ count. IsWithinCap telling.now.cap count) }
{
    match telling.net.kind_of(var) {
        VarKind::Input { number } => Ok(input_changes(
            telling.start[var as usize],
            telling.input[number as usize],
        )),
        VarKind::Gate { kind } => {
            let (wire, count) = telling.net.wires_in(var);
            let pins = &told[wire as usize..(wire + count) as usize];
            gate_changes(alloc, telling, var, kind, wire, pins)
        }
        VarKind::Wire { source, .. } => Ok(told[source as usize].changes),
    }
}

// The changes of an input: one if the new input differs.
fn input_changes(old: bool, new: bool) -> Count
    ensures value { result ≡ input_count old new }
{
    Count::Exact(u64::from(old != new))
}

// The changes of a gate under its orders, if it has some.
fn gate_changes(
    alloc: Global,
    telling: &Telling,
    var: u32,
    kind: Kind,
    wire: u32,
    pins: &[Word],
) -> Result<Count, Memory>
    requires telling { CanBeTold telling.now }
    requires pins { IsTrue (takes kind (length pins.now)) }
    requires counted { AreCounted telling.now.cap pins.now }
    ensures bound { IfOk result (λ count.
        IsBoundUnder telling.now.orders.now kind wire pins.now telling.now.cap count) }
    ensures tabled { IfOk result (λ count. (tabled : List Order) →
        (HaveTable pins.now → HoldAlike wire (length pins.now) telling.now.orders.now tabled) →
        IsBoundUnder tabled kind wire pins.now telling.now.cap count) }
    ensures counted { IfOk result (λ count. IsWithinCap telling.now.cap count) }
{
    if !has_orders(telling, var) {
        return Ok(fold(kind, pins, telling.cap).changes);
    }
    let gate = OrderedGate {
        kind,
        pins,
        wire,
        orders: telling.orders,
    };
    count_under(alloc, &gate, telling.cap)
}

// Whether a gate has orders. If none is told of it, its word without orders bounds it too.
fn has_orders(telling: &Telling, var: u32) -> bool {
    match telling.ordered.get(var as usize) {
        Some(mark) => *mark,
        None => true,
    }
}

// Whether a variable is held.
fn is_held(held: &[u32], var: u32) -> bool
    ensures { IsTrue result → IsTrue (is_listed held.now var) }
{
    for place in 0..held.len() {
        if held[place] == var {
            return true;
        }
    }
    false
}

// Whether a word begins with a letter.
fn begins_with(word: Word, letter: bool) -> bool
    ensures { IsTrue result → word.first ≡ letter }
{
    word.first == letter
}

// Whether a variable is told enough: it begins as at the start, and if it is not held, it has changes enough.
fn is_enough(alloc: Global, telling: &Telling, told: &[Word], var: u32) -> Result<bool, Memory>
    requires telling { CanBeTold telling.now }
    requires told { AreToldSoFar telling.now told.now }
    requires var { IsVariable telling.now.net.now var }
    ensures { IfOk result (λ yes. IsTrue yes → IsToldEnough telling.now told.now var) }
{
    let word = told[var as usize];
    if !begins_with(word, telling.start[var as usize]) {
        return Ok(false);
    }
    if is_held(telling.held, var) {
        return Ok(true);
    }
    let enough = enough_for(alloc, telling, told, var)?;
    Ok(is_at_most(enough, word.changes))
}

/// Whether every variable is told enough.
pub(crate) fn are_inductive(alloc: Global, telling: &Telling, told: &[Word]) -> Result<bool, Memory>
    requires telling { CanBeTold telling.now }
    requires told { AreToldSoFar telling.now told.now }
    ensures inductive { IfOk result (λ yes. IsTrue yes → IsInductiveHolding telling.now.held.now
        telling.now.orders.now (network_of telling.now.net.now) telling.now.input.now
        telling.now.start.now telling.now.cap told.now) }
    ensures tabled { IfOk result (λ yes. IsTrue yes → (tabled : List Order) →
        AreTabled (network_of telling.now.net.now) told.now telling.now.orders.now tabled →
        IsInductiveHolding telling.now.held.now tabled (network_of telling.now.net.now)
        telling.now.input.now telling.now.start.now telling.now.cap told.now) }
{
    for var in 0..telling.net.len() {
        if !is_enough(alloc, telling, told, var)? {
            return Ok(false);
        }
    }
    Ok(true)
}
