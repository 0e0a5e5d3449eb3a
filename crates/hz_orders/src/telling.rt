//! Words of all variables under orders: told by iteration from no change on, and looked at afterwards.
ghost use Rattle.std.specs.Prelude.{◌≡◌, ◌≤◌, false, List, IfOk, OnOk, IsTrue, length};
ghost use Rattle.hz_net.specs.Network.{network_of, IsInput, IsVariable};
ghost use Rattle.hz_net.specs.Starts.{IsStableStart};
ghost use Rattle.hz_word.specs.Capped.{greatest_cap};
ghost use Rattle.hz_free.specs.Inductive.{IsInductive};
ghost use Rattle.hz_orders.specs.declared.order.Order.{Order};
ghost use Rattle.hz_orders.specs.Inductive.{IsInductiveHolding};
ghost use Rattle.hz_orders.specs.Tabled.{AreTabled};
ghost use Rattle.hz_orders.specs.Telling.{AreToldSoFar, CanBeTold};

use crate::component::{by_component, raise_in_order};
use crate::driven::{are_inductive, enough_for, is_at_most};
use crate::order::Order;
use hz_core::Memory;
use hz_net::Net;
use hz_word::{Count, Word};
use std::alloc::Global;

/// A change in which runs keep orders: a start of a network, a new input, the orders, the variables that are held at their start, and a cap.
#[derive(Clone, Copy)]
pub struct OrderedChange<'a> {
    pub net: &'a Net,
    pub start: &'a [bool],
    pub input: &'a [bool],
    pub orders: &'a [Order],
    pub held: &'a [u32],
    pub cap: u64,
}

/// What words are told from: a change, and which gates have orders.
#[derive(Clone, Copy)]
pub(crate) struct Telling<'a> {
    pub(crate) net: &'a Net,
    pub(crate) start: &'a [bool],
    pub(crate) input: &'a [bool],
    pub(crate) orders: &'a [Order],
    pub(crate) held: &'a [u32],
    pub(crate) cap: u64,
    pub(crate) ordered: &'a [bool],
}

/// How often a number is raised before it becomes Many.
const MOST_RISES: u8 = 3;

/// Tells each variable how often it changes at most along the runs that keep the orders, given words that are inductive without orders.
///
/// The words grow from no change on, component by component, until each is enough. If one that has grown three times is not enough, it is
/// told many changes. If the words are not inductive in the end, those that were given stay. The orders whose gates have no table play no
/// part: without them the words are inductive too.
pub fn tell_under(alloc: Global, change: &OrderedChange, told: &mut [Word]) -> Result<(), Memory>
    requires start { IsStableStart change.now.net.now change.now.start.now }
    requires input { IsInput change.now.net.now change.now.input.now }
    requires cap_low { 1 ≤ change.now.cap }
    requires cap_high { change.now.cap ≤ greatest_cap }
    requires told { IsInductive (network_of change.now.net.now) change.now.input.now
        change.now.start.now change.now.cap told.old }
    ensures inductive { OnOk result (IsInductiveHolding change.now.held.now change.now.orders.now
        (network_of change.now.net.now) change.now.input.now change.now.start.now change.now.cap
        told.new) }
    ensures tabled { OnOk result ((tabled : List Order) →
        AreTabled (network_of change.now.net.now) told.new change.now.orders.now tabled →
        IsInductiveHolding change.now.held.now tabled (network_of change.now.net.now)
        change.now.input.now change.now.start.now change.now.cap told.new) }
{
    change.net.keeps_shape();
    let ordered = ordered_gates(alloc, change)?;
    let telling = Telling {
        net: change.net,
        start: change.start,
        input: change.input,
        orders: change.orders,
        held: change.held,
        cap: change.cap,
        ordered: ordered.as_slice(),
    };
    tell_all(alloc, &telling, told)
}

// The same, if it is known which gates have orders.
fn tell_all(alloc: Global, telling: &Telling, told: &mut [Word]) -> Result<(), Memory>
    requires telling { CanBeTold telling.now }
    requires told { IsInductive (network_of telling.now.net.now) telling.now.input.now
        telling.now.start.now telling.now.cap told.old }
    ensures inductive { OnOk result (IsInductiveHolding telling.now.held.now telling.now.orders.now
        (network_of telling.now.net.now) telling.now.input.now telling.now.start.now
        telling.now.cap told.new) }
    ensures tabled { OnOk result ((tabled : List Order) →
        AreTabled (network_of telling.now.net.now) told.new telling.now.orders.now tabled →
        IsInductiveHolding telling.now.held.now tabled (network_of telling.now.net.now)
        telling.now.input.now telling.now.start.now telling.now.cap told.new) }
{
    let mut words = no_changes(alloc, telling)?;
    let order = by_component(alloc, telling, told)?;
    raise_in_order(alloc, telling, &order, words.as_mut_slice())?;
    let better = are_inductive(alloc, telling, words.as_slice())?;
    replace_if(better, words.as_slice(), told);
    Ok(())
}

// Writes words over others, if a flag is set.
fn replace_if(better: bool, words: &[Word], told: &mut [Word])
    requires { length told.old ≡ length words.now }
    ensures replaced { IsTrue better → told.new ≡ words.now }
    ensures kept { better ≡ false → told.new ≡ told.old }
{
    if !better {
        return;
    }
    told.copy_from_slice(words);
}

// Which gates have orders. It saves tables for the others, and nothing rests on it.
fn ordered_gates(alloc: Global, change: &OrderedChange) -> Result<Vec<bool>, Memory> {
    let mut marks = vec![in alloc; false; change.net.len() as usize]?;
    for order in change.orders {
        mark_readers(change.net, order.first, marks.as_mut_slice());
    }
    Ok(marks)
}

// Marks what reads a variable.
fn mark_readers(net: &Net, var: u32, marks: &mut [bool]) {
    if var >= net.len() {
        return;
    }
    for reader in net.readers(var) {
        let place = *reader as usize;
        if place < marks.len() {
            marks[place] = true;
        }
    }
}

// Words without a change.
fn no_changes(alloc: Global, telling: &Telling) -> Result<Vec<Word>, Memory>
    requires { CanBeTold telling.now }
    ensures { IfOk result (λ words. AreToldSoFar telling.now words.items) }
{
    let mut words = Vec::new(alloc);
    for var in 0..telling.net.len() {
        words.push(Word {
            first: telling.start[var as usize],
            changes: Count::Exact(0),
        })?;
    }
    Ok(words)
}

/// Raises the word of a variable if it is not told enough, and says whether it did.
pub(crate) fn raise(
    alloc: Global,
    telling: &Telling,
    rises: &mut [u8],
    told: &mut [Word],
    var: u32,
) -> Result<bool, Memory>
    requires telling { CanBeTold telling.now }
    requires told { AreToldSoFar telling.now told.old }
    requires rises { length rises.old ≡ length told.old }
    requires var { IsVariable telling.now.net.now var }
    ensures { AreToldSoFar telling.now told.new }
{
    let place = var as usize;
    let enough = enough_for(alloc, telling, told, var)?;
    if is_at_most(enough, told[place].changes) {
        return Ok(false);
    }
    let often = rises[place] >= MOST_RISES;
    let changes = if often { Count::Many } else { enough };
    rises[place] = rises[place].saturating_add(1);
    told[place] = Word {
        first: telling.start[place],
        changes,
    };
    Ok(true)
}
