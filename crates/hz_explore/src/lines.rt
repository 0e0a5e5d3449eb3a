//! The lines of an exploration.
ghost use Rattle.std.specs.Prelude.{◌≡◌, ◌<◌, ◌≤◌, ◌+◌, ◌++◌, codes, decimal, length, nat_eq, All, IfSome};
ghost use Rattle.std.specs.List.{list_any};
ghost use Rattle.hz_net.specs.Network.{IsVariable};
ghost use Rattle.hz_write.specs.Writer.{Writes, NoneWaits};
ghost use Rattle.hz_write.specs.Writes.{newline};
ghost use Rattle.hz_text.specs.VariableWord.{spaced_word};
ghost use Rattle.hz_explore.specs.ExploreText.{burst_text, counts_text, maybe_static_text, number_text, rest_on, same_order, state_line, totals_text, used_number, used_numbers, used_text, whole_word};
ghost use Rattle.hz_explore.specs.Inside.{changes_in, end_text, most_changes, IsTellable};

use crate::counting::{Classes, Totals};
use crate::room::{End, Made};
use hz_edge_reports::{ChangeRoom, Making};
use hz_net::Net;
use hz_orders::Order;
use hz_outside::Sink;
use hz_text::{write_assignments, write_bits, write_variable};
use hz_timing::Assumption;
use hz_write::Piece::{Count, Long, Number, Text};
use hz_write::Writer;

/// A burst from the state with a number, which is counted from 1.
#[derive(Clone, Copy)]
pub(crate) struct Taken<'a> {
    pub number: u32,
    pub burst: &'a [(u32, bool)],
}

// Gives the values of the nodes in a state. States are counted from 1.
pub(crate) fn write_nodes<K: Sink>(
    writer: &mut Writer<'_, K>,
    net: &Net,
    number: u32,
    nodes: &[bool],
)
    requires { length nodes.now ≡ length net.now.names }
    ensures gave { Writes K.output K.faults (state_line net.now number nodes.now) writer.old
        writer.new }
    ensures none_waits { NoneWaits writer.new }
{
    writer.add(&[Text(b"state "), Number(number)]);
    write_bits(writer, net.circuit(), b"", nodes);
}

// Gives the line of a change: where it ends, its burst, the classes of the nodes, and the assumptions that it uses.
pub(crate) fn write_made<K: Sink>(
    writer: &mut Writer<'_, K>,
    making: &Making,
    taken: &Taken,
    made: &Made,
    change: &ChangeRoom,
)
    requires burst { All (λ pair. pair.0 < length making.now.net.now.names) taken.now.burst.now }
    requires end { IsTellable making.now.net.now made.now.end }
    ensures gave { Writes K.output K.faults
        (decimal taken.now.number
        ++ end_text making.now.net.now making.now.assumptions.now taken.now.burst.now
        made.now.classes made.now.end
        ++ used_text making.now.assumptions.now change.now.used.items change.now.kept ++ newline)
        writer.old writer.new }
    ensures none_waits { NoneWaits writer.new }
{
    writer.add(&[Number(taken.number)]);
    write_end(writer, making, taken.burst, made);
    write_used(
        writer,
        making.assumptions,
        change.used.as_slice(),
        change.kept,
    );
    writer.end();
}

// Gives where a change ends, its burst, and the classes of the nodes.
fn write_end<K: Sink>(
    writer: &mut Writer<'_, K>,
    making: &Making,
    burst: &[(u32, bool)],
    made: &Made,
)
    requires burst { All (λ pair. pair.0 < length making.now.net.now.names) burst.now }
    requires end { IsTellable making.now.net.now made.now.end }
    ensures { Writes K.output K.faults
        (end_text making.now.net.now making.now.assumptions.now burst.now made.now.classes
        made.now.end) writer.old writer.new }
{
    match made.end {
        End::Settled(place) => write_settled(writer, making, burst, made.classes, place),
        End::Unsettled(var) => write_unsettled(writer, making.net, burst, var),
    }
}

// Gives the state in which a change settles, its burst, and the classes of the nodes.
fn write_settled<K: Sink>(
    writer: &mut Writer<'_, K>,
    making: &Making,
    burst: &[(u32, bool)],
    classes: Classes,
    place: Option<u32>,
)
    requires burst { All (λ pair. pair.0 < length making.now.net.now.names) burst.now }
    requires place { IfSome place (λ place. place < 4294967295) }
    ensures { Writes K.output K.faults
        (codes " to " ++ number_text place ++ burst_text making.now.net.now burst.now
        ++ counts_text classes ++ maybe_static_text making.now.assumptions.now classes)
        writer.old writer.new }
{
    writer.text(b" to ");
    write_place(writer, place);
    write_assignments(writer, making.net.circuit(), burst);
    write_classes(writer, classes);
    write_maybe_static(writer, making.assumptions, classes);
}

// Gives the burst of a change, and the variable that it leaves unsettled.
fn write_unsettled<K: Sink>(writer: &mut Writer<'_, K>, net: &Net, burst: &[(u32, bool)], var: u32)
    requires burst { All (λ pair. pair.0 < length net.now.names) burst.now }
    requires var { IsVariable net.now var }
    ensures { Writes K.output K.faults
        (codes " unsettled" ++ burst_text net.now burst.now ++ spaced_word net.now var)
        writer.old writer.new }
{
    writer.text(b" unsettled");
    write_assignments(writer, net.circuit(), burst);
    writer.text(b" ");
    write_variable(writer, net, var);
}

// Gives the number of a state, or that it was not found.
fn write_place<K: Sink>(writer: &mut Writer<'_, K>, place: Option<u32>)
    requires { IfSome place (λ place. place < 4294967295) }
    ensures { Writes K.output K.faults (number_text place) writer.old writer.new }
{
    match place {
        Some(place) => writer.add(&[Number(place + 1)]),
        None => writer.text(b"more"),
    }
}

// Gives how many nodes are of each class.
fn write_classes<K: Sink>(writer: &mut Writer<'_, K>, classes: Classes)
    ensures { Writes K.output K.faults (counts_text classes) writer.old writer.new }
{
    writer.add(&[
        Text(b" single "),
        Number(classes.single),
        Text(b" static "),
        Number(classes.statics),
        Text(b" dynamic "),
        Number(classes.dynamic),
        Text(b" maybe-dynamic "),
        Number(classes.maybe_dynamic),
    ]);
}

// Gives how many nodes are maybe-static, if the script assumes something.
fn write_maybe_static<K: Sink>(
    writer: &mut Writer<'_, K>,
    assumptions: &[Assumption],
    classes: Classes,
)
    ensures { Writes K.output K.faults (maybe_static_text assumptions.now classes) writer.old
        writer.new }
{
    if assumptions.is_empty() {
        return;
    }
    writer.add(&[Text(b" maybe-static "), Number(classes.maybe_static)]);
}

// Gives the assumptions on which the orders rest that a change uses, and whether a run that keeps them is shown.
fn write_used<K: Sink>(
    writer: &mut Writer<'_, K>,
    assumptions: &[Assumption],
    used: &[Order],
    kept: bool,
)
    ensures { Writes K.output K.faults (used_text assumptions.now used.now kept) writer.old
        writer.new }
{
    if used.is_empty() {
        return;
    }
    writer.text(b" used");
    write_numbers(writer, assumptions, used);
    if !kept {
        writer.text(b" not shown");
    }
}

// Gives the numbers of the assumptions on which orders rest, counted from 1.
fn write_numbers<K: Sink>(writer: &mut Writer<'_, K>, assumptions: &[Assumption], used: &[Order])
    ensures { Writes K.output K.faults (used_numbers 1 assumptions.now used.now) writer.old
        writer.new }
{
    for (place, assumption) in assumptions.iter().enumerate() {
        write_number(writer, place, *assumption, used);
    }
}

// Gives the number of an assumption, which stands at this place, if orders rest on it.
fn write_number<K: Sink>(
    writer: &mut Writer<'_, K>,
    place: usize,
    given: Assumption,
    used: &[Order],
)
    requires { place < 9223372036854775807 }
    ensures { Writes K.output K.faults (used_number (place + 1) given used.now) writer.old
        writer.new }
{
    if rest_on(used, given) {
        writer.add(&[Text(b" "), Count(place + 1)]);
    }
}

// Whether orders rest on an assumption.
fn rest_on(used: &[Order], given: Assumption) -> bool
    ensures { result ≡ rest_on used.now given }
{
    match given {
        Assumption::Order(order) => has_order(used, order),
        Assumption::Ideal(wire) => has_first(used, wire),
    }
}

// Whether an order is one of these.
fn has_order(used: &[Order], order: Order) -> bool
    ensures { result ≡ list_any (same_order order) used.now }
{
    for other in used {
        if is_same(order, *other) {
            return true;
        }
    }
    false
}

// Whether a wire is the first one of one of these orders.
fn has_first(used: &[Order], wire: u32) -> bool
    ensures { result ≡ list_any (λ order. nat_eq order.first wire) used.now }
{
    for other in used {
        if other.first == wire {
            return true;
        }
    }
    false
}

// Whether two orders are the same.
fn is_same(order: Order, other: Order) -> bool
    ensures { result ≡ same_order order other }
{
    order.first == other.first && order.second == other.second && order.nth == other.nth
}

// Gives how many states and changes there are, and how many changes are of each kind.
pub(crate) fn write_totals<K: Sink>(writer: &mut Writer<'_, K>, states: usize, totals: Totals)
    requires { changes_in totals ≤ most_changes }
    ensures gave { Writes K.output K.faults
        (totals_text totals.is_whole states totals.clean totals.hazards totals.unsettled)
        writer.old writer.new }
    ensures none_waits { NoneWaits writer.new }
{
    write_whole(writer, totals.is_whole);
    writer.line(&[
        Text(b" states "),
        Count(states),
        Text(b" changes "),
        Long(totals.changes()),
        Text(b" clean "),
        Long(totals.clean),
        Text(b" hazards "),
        Long(totals.hazards),
        Text(b" unsettled "),
        Long(totals.unsettled),
    ]);
}

// Gives whether all states were found.
fn write_whole<K: Sink>(writer: &mut Writer<'_, K>, is_whole: bool)
    ensures { Writes K.output K.faults (whole_word is_whole) writer.old writer.new }
{
    if is_whole {
        writer.text(b"all");
    } else {
        writer.text(b"part");
    }
}
