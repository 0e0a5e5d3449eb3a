//! The most changes of a gate along what keeps its orders, by a table of the positions of its pins.
ghost use Rattle.std.specs.Prelude.{◌≡◌, ◌⊎◌, ◌+◌, ◌*◌, ◌<◌, ◌≤◌, ℕ, false, suc, List, [], ◌∷◌, ◌++◌, map, All, IfOk, IfSome, IsNone, OnOk, IsTrue, length, slice_index_or};
ghost use Rattle.hz_core.specs.Gate.{takes};
ghost use Rattle.hz_word.specs.declared.count.Count.TheVariants.{Exact};
ghost use Rattle.hz_word.specs.declared.word.Word.{Word};
ghost use Rattle.hz_word.specs.Capped.{IsFold, IsWithinCap, capped_count, greatest_cap};
ghost use Rattle.hz_word.specs.Pairs.{last_after};
ghost use Rattle.hz_word.specs.Walk.{change_between};
ghost use Rattle.hz_orders.specs.Parts.{IsBoundUnder, IsCountUnder, IsKeptAt};
ghost use Rattle.hz_orders.specs.Positions.{begin, behind_numbers, HaveTable, IsExactCount, IsMostFrom, KeepsAt, most_places, exact_count, positions_of, value_of};
ghost use Rattle.hz_orders.specs.Tables.{AdvancesEach, AreEnoughOrders, AreMostBehind, ArePlaces, AreWithOrder, IsOfOthers, IsPlaceAt, IsTable};

use crate::order::Order;
use crate::positions::Positions;
use hz_core::{Kind, Memory};
use hz_word::{Count, Word, fold};
use std::alloc::Global;

/// A gate with orders: its kind, the words of its pins, the variable of its first wire, and the orders. Those of other wires say nothing.
#[derive(Clone, Copy)]
pub struct OrderedGate<'a> {
    pub kind: Kind,
    pub pins: &'a [Word],
    pub wire: u32,
    pub orders: &'a [Order],
}

/// What a position of a gate's wires tells: whether it keeps the orders, and the value of the gate.
#[derive(Clone, Copy)]
pub(crate) struct Place {
    pub(crate) kept: bool,
    pub(crate) value: bool,
}

/// A gate, all positions of its pins, and what each tells.
#[derive(Clone, Copy)]
pub(crate) struct Table<'a> {
    pub(crate) gate: &'a OrderedGate<'a>,
    pub(crate) positions: &'a Positions,
    pub(crate) places: &'a [Place],
}

// No table has more places.
const MOST_PLACES: u64 = 512;

/// How often a gate changes at most along what keeps its orders, up to a cap. If its pins have too many positions for a table, it is as
/// without orders.
pub fn count_under(alloc: Global, gate: &OrderedGate, cap: u64) -> Result<Count, Memory>
    requires pins { IsTrue (takes gate.now.kind (length gate.now.pins.now)) }
    requires counted { All (λ pin. IsWithinCap cap pin.changes) gate.now.pins.now }
    requires cap_low { 1 ≤ cap }
    requires cap_high { cap ≤ greatest_cap }
    ensures exact { IfOk result (λ count. HaveTable gate.now.pins.now →
        IsCountUnder gate.now.orders.now gate.now.kind gate.now.wire gate.now.pins.now cap count) }
    ensures fold { IfOk result (λ count. (HaveTable gate.now.pins.now → ⊥) →
        (word : Word) × IsFold gate.now.kind gate.now.pins.now cap word × (word.changes ≡ count)) }
    ensures bound { IfOk result (λ count.
        IsBoundUnder gate.now.orders.now gate.now.kind gate.now.wire gate.now.pins.now cap count) }
    ensures counted { IfOk result (λ count. IsWithinCap cap count) }
{
    if !have_table(gate.pins) {
        return Ok(fold(gate.kind, gate.pins, cap).changes);
    }
    let most = most_changes(alloc, gate)?;
    Ok(capped(most, cap))
}

// A number under a cap.
fn capped(changes: u64, cap: u64) -> Count
    ensures value { result ≡ capped_count cap changes }
    ensures counted { IsWithinCap cap result }
{
    if changes <= cap {
        Count::Exact(changes)
    } else {
        Count::Many
    }
}

/// Whether pins have a table.
pub(crate) fn have_table(pins: &[Word]) -> bool
    ensures some { IsTrue result → HaveTable pins.now }
    ensures none { HaveTable pins.now → IsTrue result }
{
    places(pins).is_some()
}

// The number of the positions of pins, if they have a table.
fn places(pins: &[Word]) -> Option<u64>
    ensures some { IfSome result (λ places. HaveTable pins.now × (places ≡ length (positions_of pins.now))) }
    ensures none { IsNone result → HaveTable pins.now → ⊥ }
{
    if pins.is_empty() {
        return Some(1);
    }
    let Some(rest) = places(&pins[1..]) else {
        return None;
    };
    times_one_more(pins[0].changes, rest)
}

// The product of a number and one more than another, if it is not too great for a table.
fn times_one_more(changes: Count, rest: u64) -> Option<u64>
    requires { rest ≤ most_places }
    ensures some { IfSome result (λ places. IsExactCount changes × (places ≡ suc (exact_count changes) * rest) × (places ≤ most_places)) }
    ensures none { IsNone result → IsExactCount changes → 1 ≤ rest → suc (exact_count changes) * rest ≤ most_places → ⊥ }
{
    match changes {
        Count::Exact(changes) if changes < MOST_PLACES && (changes + 1) * rest <= MOST_PLACES =>
            Some((changes + 1) * rest),
        _ => None,
    }
}

// The most changes of a gate whose pins have a table.
fn most_changes(alloc: Global, gate: &OrderedGate) -> Result<u64, Memory>
    requires pins { IsTrue (takes gate.now.kind (length gate.now.pins.now)) }
    requires table { HaveTable gate.now.pins.now }
    ensures { IfOk result (λ most. IsMostFrom gate.now.orders.now gate.now.kind gate.now.wire gate.now.pins.now
        (begin gate.now.pins.now) most) }
{
    let positions = all_positions(alloc, gate.pins)?;
    let own = own_orders(alloc, gate)?;
    let places = all_places(alloc, gate, own.as_slice(), &positions)?;
    let mut most = vec![in alloc; 0u64; positions.len()]?;
    let table = Table {
        gate,
        positions: &positions,
        places: places.as_slice(),
    };
    Ok(most_from_begin(&table, most.as_mut_slice()))
}

// The orders of which both wires are wires of the gate. Each position keeps them exactly if it keeps all orders.
fn own_orders(alloc: Global, gate: &OrderedGate) -> Result<Vec<Order>, Memory>
    ensures { IfOk result (λ own. AreEnoughOrders gate.now own.items) }
{
    let mut own = Vec::new(alloc);
    for place in 0..gate.orders.len() {
        add_own(gate, gate.orders[place], &mut own)?;
    }
    Ok(own)
}

// Adds an order if both its wires are wires of the gate.
fn add_own(gate: &OrderedGate, order: Order, own: &mut Vec<Order>) -> Result<(), Memory>
    ensures { OnOk result (AreWithOrder gate.now order own.old.items own.new.items) }
{
    if !is_own(gate, order) {
        return Ok(());
    }
    own.push(order)?;
    Ok(())
}

// Whether both wires of an order are wires of the gate.
fn is_own(gate: &OrderedGate, order: Order) -> bool
    ensures { result ≡ false → IsOfOthers gate.now order }
{
    if order.first < gate.wire || order.second < gate.wire {
        return false;
    }
    let first = (order.first - gate.wire) as usize;
    let second = (order.second - gate.wire) as usize;
    first < gate.pins.len() && second < gate.pins.len()
}

// What each position tells: by the orders of the gate's own wires.
fn all_places(
    alloc: Global,
    gate: &OrderedGate,
    own: &[Order],
    positions: &Positions,
) -> Result<Vec<Place>, Memory>
    requires pins { IsTrue (takes gate.now.kind (length gate.now.pins.now)) }
    requires table { HaveTable gate.now.pins.now }
    requires positions { positions.now ≡ positions_of gate.now.pins.now }
    requires own { AreEnoughOrders gate.now own.now }
    ensures { IfOk result (λ places. ArePlaces gate.now positions.now places.items) }
{
    let mut letters = vec![in alloc; false; gate.pins.len()]?;
    let mut places = Vec::new(alloc);
    add_places(gate, own, positions, letters.as_mut_slice(), &mut places)?;
    Ok(places)
}

// Adds what each position tells, one position after the other.
fn add_places(
    gate: &OrderedGate,
    own: &[Order],
    positions: &Positions,
    letters: &mut [bool],
    places: &mut Vec<Place>,
) -> Result<(), Memory>
    requires pins { IsTrue (takes gate.now.kind (length gate.now.pins.now)) }
    requires table { HaveTable gate.now.pins.now }
    requires positions { positions.now ≡ positions_of gate.now.pins.now }
    requires own { AreEnoughOrders gate.now own.now }
    requires letters { length letters.old ≡ length gate.now.pins.now }
    requires places { places.old.items ≡ [] }
    ensures { OnOk result (ArePlaces gate.now positions.now places.new.items) }
{
    for number in 0..positions.len() {
        let place = place_at(gate, own, positions.position(number), letters);
        places.push(place)?;
    }
    Ok(())
}

// What a position tells.
fn place_at(gate: &OrderedGate, own: &[Order], position: &[u32], letters: &mut [bool]) -> Place
    requires pins { IsTrue (takes gate.now.kind (length gate.now.pins.now)) }
    requires position { length position.now ≡ length gate.now.pins.now }
    requires own { AreEnoughOrders gate.now own.now }
    requires letters { length letters.old ≡ length gate.now.pins.now }
    ensures place { IsPlaceAt gate.now position.now result }
    ensures letters { length letters.new ≡ length letters.old }
{
    Place {
        kept: keeps(gate.wire, own, position),
        value: value_at(gate, position, letters),
    }
}

// All positions of pins.
fn all_positions(alloc: Global, pins: &[Word]) -> Result<Positions, Memory>
    requires { HaveTable pins.now }
    ensures { IfOk result (λ positions. positions ≡ positions_of pins.now) }
{
    if pins.is_empty() {
        let mut positions = Positions::new(alloc);
        positions.push(&[])?;
        return Ok(positions);
    }
    let tails = all_positions(alloc, &pins[1..])?;
    behind_numbers(alloc, number_of(pins[0].changes) + 1, &tails)
}

// The number of a count that is exact.
fn number_of(count: Count) -> u32
    requires { exact_count count < most_places }
    ensures { result ≡ exact_count count }
{
    match count {
        Count::Exact(changes) => changes as u32,
        Count::Many => 0,
    }
}

// The positions of a list behind each number below another.
fn behind_numbers(alloc: Global, below: u32, tails: &Positions) -> Result<Positions, Memory>
    ensures { IfOk result (λ positions. positions ≡ behind_numbers below tails.now) }
{
    let mut positions = Positions::new(alloc);
    for times in 0..below {
        add_behind(alloc, times, tails, &mut positions)?;
    }
    Ok(positions)
}

// Adds the positions of a list behind a number.
fn add_behind(
    alloc: Global,
    times: u32,
    tails: &Positions,
    positions: &mut Positions,
) -> Result<(), Memory>
    ensures { OnOk result (positions.new ≡ positions.old ++ map (λ (tail : List ℕ). times ∷ tail) tails.now) }
{
    for place in 0..tails.len() {
        let row = joined(alloc, times, tails.position(place))?;
        positions.push(row.as_slice())?;
    }
    Ok(())
}

// A number and those behind it.
fn joined(alloc: Global, times: u32, tail: &[u32]) -> Result<Vec<u32>, Memory>
    ensures { IfOk result (λ row. row.items ≡ times ∷ tail.now) }
{
    let mut row = Vec::new(alloc);
    row.push(times)?;
    row.extend_from_slice(tail)?;
    Ok(row)
}

// How often the gate changes at most from the first place on. It tells each place its number, from the last one to the first, since moves
// lead to later ones.
fn most_from_begin(table: &Table, most: &mut [u64]) -> u64
    requires table { IsTable table.now }
    requires most { length most.old ≡ length table.now.positions.now }
    ensures { IsMostFrom table.now.gate.now.orders.now table.now.gate.now.kind table.now.gate.now.wire
        table.now.gate.now.pins.now (begin table.now.gate.now.pins.now) result }
{
    let mut from_here = 0;
    for done in 0..table.positions.len() {
        let place = table.positions.len() - 1 - done;
        from_here = most_from(table, most, place);
        most[place] = from_here;
    }
    from_here
}

// How often the gate changes at most from a place on, if that is told of all later ones.
fn most_from(table: &Table, most: &[u64], place: usize) -> u64
    requires table { IsTable table.now }
    requires place { place < length table.now.positions.now }
    requires most { AreMostBehind table.now.gate.now table.now.positions.now most.now (suc place) }
    ensures most { IsMostFrom table.now.gate.now.orders.now table.now.gate.now.kind table.now.gate.now.wire
        table.now.gate.now.pins.now (slice_index_or table.now.positions.now place []) result }
    ensures less { result + place < length table.now.positions.now }
{
    let before = table.positions.position(place);
    let old = table.places[place].value;
    let mut best = 0u64;
    for later in place + 1..table.positions.len() {
        let after = table.positions.position(later);
        let more = most_through(before, old, after, table.places[later], most[later]);
        best = best.max(more);
    }
    best
}

// How often a gate changes at most if the first move leads from one position to another, from which on it changes so often. It is 0 if no
// move does.
fn most_through(before: &[u32], old: bool, after: &[u32], new: Place, most: u64) -> u64
    requires { most < most_places }
    ensures bound { AdvancesEach before.now after.now → IsTrue new.kept →
        most + change_between old new.value ≤ result }
    ensures attained { (result ≡ 0) ⊎ (AdvancesEach before.now after.now × IsTrue new.kept
        × (most + change_between old new.value ≡ result)) }
{
    if !new.kept || !is_onward(before, after) {
        return 0;
    }
    most + changed(old, new.value)
}

// 1 if two values differ, else 0.
fn changed(before: bool, after: bool) -> u64
    ensures { result ≡ change_between before after }
{
    u64::from(before != after)
}

// Whether each pin advances once or stays from one position to another.
fn is_onward(before: &[u32], after: &[u32]) -> bool
    ensures onward { IsTrue result → AdvancesEach before.now after.now }
    ensures others { AdvancesEach before.now after.now → IsTrue result }
{
    if before.len() != after.len() {
        return false;
    }
    for pin in 0..before.len() {
        if after[pin] < before[pin] || after[pin] - before[pin] > 1 {
            return false;
        }
    }
    true
}

// Whether a position of a gate's wires keeps orders.
fn keeps(wire: u32, orders: &[Order], position: &[u32]) -> bool
    ensures kept { IsTrue result → KeepsAt orders.now wire position.now }
    ensures others { KeepsAt orders.now wire position.now → IsTrue result }
{
    for place in 0..orders.len() {
        if !keeps_one(wire, orders[place], position) {
            return false;
        }
    }
    true
}

// Whether a position keeps an order, if this is one of its wires.
fn keeps_one(wire: u32, order: Order, position: &[u32]) -> bool
    ensures kept { IsTrue result → IsKeptAt wire (length position.now) (λ pin. slice_index_or position.now pin 0) order }
    ensures others { IsKeptAt wire (length position.now) (λ pin. slice_index_or position.now pin 0) order → IsTrue result }
{
    if order.first < wire || order.second < wire {
        return true;
    }
    let first = (order.first - wire) as usize;
    let second = (order.second - wire) as usize;
    if first >= position.len() || second >= position.len() {
        return true;
    }
    u64::from(position[second]) < order.nth || position[first] >= 1
}

// The letter with which a word ends that begins with another and has so many changes.
fn last_after(first: bool, changes: u32) -> bool
    ensures { result ≡ last_after first changes }
{
    first != (changes % 2 == 1)
}

// The value of a gate at a position of its pins.
fn value_at(gate: &OrderedGate, position: &[u32], letters: &mut [bool]) -> bool
    requires pins { IsTrue (takes gate.now.kind (length gate.now.pins.now)) }
    requires position { length position.now ≡ length gate.now.pins.now }
    requires letters { length letters.old ≡ length gate.now.pins.now }
    ensures value { result ≡ value_of gate.now.kind gate.now.pins.now position.now }
    ensures letters { length letters.new ≡ length letters.old }
{
    for pin in 0..gate.pins.len() {
        letters[pin] = last_after(gate.pins[pin].first, position[pin]);
    }
    gate.kind.eval(letters)
}
