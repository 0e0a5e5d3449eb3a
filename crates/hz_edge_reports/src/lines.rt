//! The lines of one change.
ghost use Rattle.std.specs.Prelude.{◌≡◌, ◌<◌, [], ◌∷◌, length, take, All};
ghost use Rattle.std.specs.List.{flat_map};
ghost use Rattle.hz_net.specs.Network.{network_of, AreByVariable, IsInput, IsState, IsVariable};
ghost use Rattle.hz_core.specs.Letters.{tri_letter};
ghost use Rattle.hz_core.specs.Netlist.{IsCircuit};
ghost use Rattle.hz_text.specs.Printed.{letter_of};
ghost use Rattle.hz_run_text.specs.RunPrinted.{run_text_printed};
ghost use Rattle.hz_write.specs.Writer.{Writes, NoneWaits};
ghost use Rattle.hz_report.specs.Report.{shown_count};
ghost use Rattle.hz_edges.specs.Room.{IsEdgeRoom, edges_of};
ghost use Rattle.hz_edge_reports.specs.EdgeText.{bound_text, edge_class_word, edge_line, edge_lines, found_text, kept_line, kept_text, orders_line, orders_text, range_word, shown_run, used_line, values_text};
ghost use Rattle.hz_edge_reports.specs.EdgeChanges.{run_of_change};
ghost use Rattle.hz_edge_reports.specs.Room.{IsChangeRoom, change_of};

use crate::finding::Making;
use crate::room::ChangeRoom;
use hz_bounds::{EdgeClass, Range, edge_class};
use hz_core::Tri;
use hz_net::Net;
use hz_options::Show;
use hz_orders::Order;
use hz_outside::Sink;
use hz_report::{shown_count, write_assigned};
use hz_run_text::{write_end, write_run, write_states};
use hz_text::{write_variable, write_variable_after};
use hz_timing::Assumption;
use hz_write::Piece::{Count, Long, Number, Text};
use hz_write::Writer;

/// The values of a variable at the start of a change, and what it comes to.
#[derive(Clone, Copy)]
struct Ends {
    start: bool,
    end: Tri,
}

/// Gives what a change assigns, the orders that it uses, the line of each variable that is shown, whether a run keeps the orders, and the
/// run text. Changes are counted from 1.
#[tactic(auto, using(hz_write::proofs::Writers::writes_then), unfolding(crate::specs::EdgeText::found_text))]
pub(crate) fn write_found<K: Sink>(
    writer: &mut Writer<'_, K>,
    making: &Making,
    show: Show,
    number: u32,
    change: &[(u32, bool)],
    room: &ChangeRoom,
)
    requires circuit { IsCircuit making.now.net.now }
    requires change { All (λ pair. pair.0 < length making.now.net.now.names) change.now }
    requires room { IsChangeRoom making.now.net.now room.now }
    requires used { All (λ order. IsVariable making.now.net.now order.first × IsVariable making.now.net.now order.second) room.now.used.items }
    requires run { All (All (IsVariable making.now.net.now)) room.now.edges.run.steps }
    ensures gave { Writes K.output K.faults
        (found_text making.now.net.now show making.now.assumptions.now number
        change.now (change_of room.now)) writer.old writer.new }
    ensures none_waits { NoneWaits writer.new }
{
    write_assigned(writer, making.net, number, change);
    write_used(writer, making.net, room.used.as_slice());
    write_lines(writer, making.net, show, room);
    write_kept(writer, room);
    write_orders(writer, making.assumptions, room);
    write_shown_run(writer, making.net, room);
}

// Gives a line for each order that is used.
fn write_used<K: Sink>(writer: &mut Writer<'_, K>, net: &Net, used: &[Order])
    requires used { All (λ order. IsVariable net.now order.first × IsVariable net.now order.second) used.now }
    requires none_waits { NoneWaits writer.old }
    ensures gave { Writes K.output K.faults (flat_map (used_line net.now) used.now) writer.old
        writer.new }
    ensures none_waits { NoneWaits writer.new }
{
    for order in used {
        write_order(writer, net, *order);
    }
}

// Gives the line of an order that is used.
#[tactic(auto, using(hz_write::proofs::Writers::writes_then), unfolding(crate::specs::EdgeText::used_line))]
fn write_order<K: Sink>(writer: &mut Writer<'_, K>, net: &Net, order: Order)
    requires first { IsVariable net.now order.first }
    requires second { IsVariable net.now order.second }
    ensures gave { Writes K.output K.faults (used_line net.now order) writer.old writer.new }
    ensures none_waits { NoneWaits writer.new }
{
    writer.text(b"used");
    write_variable_after(writer, net, b" ", order.first);
    write_variable_after(writer, net, b" ", order.second);
    writer.line(&[Text(b" "), Long(order.nth)]);
}

// Gives the line of each variable that is shown.
fn write_lines<K: Sink>(writer: &mut Writer<'_, K>, net: &Net, show: Show, room: &ChangeRoom)
    requires room { IsChangeRoom net.now room.now }
    requires none_waits { NoneWaits writer.old }
    ensures gave { Writes K.output K.faults
        (edge_lines net.now 0 (take (shown_count net.now show) room.now.start.items)
        (take (shown_count net.now show) room.now.ends.items) (edges_of room.now.edges))
        writer.old writer.new }
    ensures none_waits { NoneWaits writer.new }
{
    net.keeps_shape();
    for var in 0..shown_count(net, show) {
        let ends = Ends {
            start: room.start[var as usize],
            end: room.ends[var as usize],
        };
        write_line(writer, net, var, ends, room.edges.range(var));
    }
}

// Gives a variable with its values, its range and its class.
#[tactic(auto, using(hz_write::proofs::Writers::writes_then), unfolding(crate::specs::EdgeText::edge_line))]
fn write_line<K: Sink>(writer: &mut Writer<'_, K>, net: &Net, var: u32, ends: Ends, range: Range)
    requires { IsVariable net.now var }
    ensures gave { Writes K.output K.faults (edge_line net.now var ends.start ends.end range) writer.old
        writer.new }
    ensures none_waits { NoneWaits writer.new }
{
    write_variable(writer, net, var);
    write_values(writer, ends.start, ends.end);
    write_range(writer, range);
    write_class(writer, edge_class(ends.start, ends.end, range));
    writer.end();
}

// Gives what stands between a variable and its range: its value at the start, and what it comes to.
fn write_values<K: Sink>(writer: &mut Writer<'_, K>, start: bool, end: Tri)
    ensures { Writes K.output K.faults (values_text start end) writer.old writer.new }
{
    writer.text(b" start ");
    writer.text(bit_word(start));
    writer.text(b" end ");
    writer.text(tri_word(end));
    writer.text(b" edges ");
}

// The letter of a bit.
fn bit_word(bit: bool) -> &'static [u8]
    ensures { result.now ≡ letter_of bit ∷ [] }
{
    if bit { b"1" } else { b"0" }
}

// The letter of a ternary value.
fn tri_word(value: Tri) -> &'static [u8]
    ensures { result.now ≡ tri_letter value }
{
    match value {
        Tri::Zero => b"0",
        Tri::One => b"1",
        Tri::Unknown => b"X",
    }
}

// Gives a range: one number if both bounds are the same, else both, or the lower one alone.
fn write_range<K: Sink>(writer: &mut Writer<'_, K>, range: Range)
    ensures { Writes K.output K.faults (range_word range) writer.old writer.new }
{
    writer.add(&[Number(range.least)]);
    write_bound(writer, range);
}

// Gives what stands behind the lower bound.
fn write_bound<K: Sink>(writer: &mut Writer<'_, K>, range: Range)
    ensures { Writes K.output K.faults (bound_text range.least range.most) writer.old writer.new }
{
    match range.most {
        None => writer.text(b".."),
        Some(most) => {
            if most != u64::from(range.least) {
                writer.add(&[Text(b".."), Long(most)]);
            }
        }
    }
}

// Gives a class, after a space.
fn write_class<K: Sink>(writer: &mut Writer<'_, K>, class: EdgeClass)
    ensures { Writes K.output K.faults (32 ∷ edge_class_word class) writer.old writer.new }
{
    writer.text(b" ");
    writer.text(class_word(class));
}

// The word of a class.
fn class_word(class: EdgeClass) -> &'static [u8]
    ensures { result.now ≡ edge_class_word class }
{
    match class {
        EdgeClass::Steady => b"steady",
        EdgeClass::Single => b"single",
        EdgeClass::Static => b"static",
        EdgeClass::MaybeStatic => b"maybe-static",
        EdgeClass::Dynamic => b"dynamic",
        EdgeClass::MaybeDynamic => b"maybe-dynamic",
        EdgeClass::Unsettled => b"unsettled",
    }
}

// Gives whether a run that keeps the orders is shown, if orders are used.
fn write_kept<K: Sink>(writer: &mut Writer<'_, K>, room: &ChangeRoom)
    requires none_waits { NoneWaits writer.old }
    ensures gave { Writes K.output K.faults (kept_text room.now.used.items room.now.kept) writer.old
        writer.new }
    ensures none_waits { NoneWaits writer.new }
{
    if room.used.as_slice().is_empty() {
        return;
    }
    write_kept_line(writer, room.kept);
}

// Gives whether a run that keeps the orders is shown.
#[tactic(auto, using(hz_write::proofs::Writers::writes_then), unfolding(crate::specs::EdgeText::kept_line))]
fn write_kept_line<K: Sink>(writer: &mut Writer<'_, K>, kept: bool)
    ensures gave { Writes K.output K.faults (kept_line kept) writer.old writer.new }
    ensures none_waits { NoneWaits writer.new }
{
    if kept {
        writer.line(&[Text(b"kept yes")]);
    } else {
        writer.line(&[Text(b"kept not shown")]);
    }
}

// Gives how many orders are used and how many are idle, if the script assumes something.
fn write_orders<K: Sink>(writer: &mut Writer<'_, K>, assumptions: &[Assumption], room: &ChangeRoom)
    requires none_waits { NoneWaits writer.old }
    ensures gave { Writes K.output K.faults
        (orders_text assumptions.now (change_of room.now)) writer.old writer.new }
    ensures none_waits { NoneWaits writer.new }
{
    if assumptions.is_empty() {
        return;
    }
    write_orders_line(writer, room.used.as_slice().len(), room.idle);
}

// Gives how many orders are used and how many are idle.
#[tactic(auto, using(hz_write::proofs::Writers::writes_then), unfolding(crate::specs::EdgeText::orders_line))]
fn write_orders_line<K: Sink>(writer: &mut Writer<'_, K>, used: usize, idle: usize)
    ensures gave { Writes K.output K.faults (orders_line used idle) writer.old writer.new }
    ensures none_waits { NoneWaits writer.new }
{
    writer.line(&[
        Text(b"orders used "),
        Count(used),
        Text(b" idle "),
        Count(idle),
    ]);
}

// Gives the run text, unless orders are used and no run that keeps them is shown.
fn write_shown_run<K: Sink>(writer: &mut Writer<'_, K>, net: &Net, room: &ChangeRoom)
    requires room { IsChangeRoom net.now room.now }
    requires run { All (All (IsVariable net.now)) room.now.edges.run.steps }
    requires none_waits { NoneWaits writer.old }
    ensures gave { Writes K.output K.faults
        (shown_run room.now.used.items room.now.kept
        (run_text_printed net.now (run_of_change net.now (change_of room.now))))
        writer.old writer.new }
    ensures none_waits { NoneWaits writer.new }
{
    if room.used.as_slice().is_empty() || room.kept {
        write_run_text(writer, net, room);
    }
}

// Gives the run text: the start and the new input, and the one run.
fn write_run_text<K: Sink>(writer: &mut Writer<'_, K>, net: &Net, room: &ChangeRoom)
    requires room { IsChangeRoom net.now room.now }
    requires run { All (All (IsVariable net.now)) room.now.edges.run.steps }
    ensures gave { Writes K.output K.faults
        (run_text_printed net.now (run_of_change net.now (change_of room.now)))
        writer.old writer.new }
    ensures none_waits { NoneWaits writer.new }
{
    net.keeps_shape();
    let nodes = net.circuit().nodes() as usize;
    write_states(
        writer,
        net.circuit(),
        &room.start.as_slice()[..nodes],
        room.input.as_slice(),
    );
    write_run(writer, net, &room.edges.run, None);
    write_end(writer);
}
