//! The lines of variables. If nodes that stay are passed over one by one, and not eight at a time, 1,000 changes of 2,000 variables take 2.7 %
//! more instructions, and changes of nothing take 10 % more.
ghost use Rattle.std.specs.Prelude.{◌≡◌, ◌<◌, ◌≤◌, ◌-◌, ◌+◌, [], ◌∷◌, ◌++◌, length, take, drop, slice_index, slice_range, codes, decimal, true, ℕ, Some, None, IsTrue, slice_index_or};
ghost use Rattle.std.specs.List.{slice_get};
ghost use Rattle.hz_core.specs.Netlist.{IsCircuit};
ghost use Rattle.hz_net.specs.Network.{AreByVariable, IsVariable};
ghost use Rattle.hz_text.specs.Printed.{letter_of};
ghost use Rattle.hz_write.specs.Writer.{Writes, NoneWaits};
ghost use Rattle.hz_report.specs.Kept.{AreRowParts, AreRowLines, AreShown};
ghost use Rattle.hz_desk.specs.declared.finding.Rest.{Rest};
ghost use Rattle.hz_desk.specs.declared.finding.Row.{Row};
ghost use Rattle.hz_desk.specs.RowsOf.{row_at_rest};
ghost use Rattle.hz_report.specs.Report.{changes_word, class_word, row_line, row_lines, row_text, shown_count, shown_rows};
ghost use Rattle.hz_core.specs.Letters.{tri_letter};

use crate::kept::COMMON;
use hz_core::Tri;
use hz_core::Tri::{One, Unknown, Zero};
use hz_desk::{Class, Rest, Rests, Row, Rows};
use hz_net::Net;
use hz_options::Show;
use hz_outside::Sink;
use hz_text::write_variable;
use hz_word::Count;
use hz_word::Count::{Exact, Many};
use hz_write::Piece::Long;
use hz_write::Writer;

// Gives the line of each variable that is shown.
pub(crate) fn write_rows<K: Sink>(writer: &mut Writer<'_, K>, net: &Net, rows: &Rows, show: Show)
    requires rows { AreByVariable net.now rows.now }
    requires none_waits { NoneWaits writer.old }
    ensures gave { Writes K.output K.faults
        (row_lines net.now 0 (shown_rows net.now show rows.now)) writer.old writer.new }
    ensures none_waits { NoneWaits writer.new }
{
    let count = shown_count(net, show);
    for var in 0..count {
        write_row(writer, net, rows, var);
    }
}

// Gives the line of each node, most of them as lines that are kept. A node that stays as it is shown is passed over, and other rows at
// rest are written over their lines.
pub(crate) fn write_kept_rows<K: Sink>(
    writer: &mut Writer<'_, K>,
    net: &Net,
    rows: &Rows,
    text: &mut [u8],
    begins: &[usize],
    shown: &mut Rests,
)
    requires rows { AreByVariable net.now rows.now }
    requires kept { AreRowLines net.now text.old begins.now shown.old }
    requires none_waits { NoneWaits writer.old }
    ensures gave { Writes K.output K.faults
        (row_lines net.now 0 (take (length net.now.names) rows.now)) writer.old writer.new }
    ensures none_waits { NoneWaits writer.new }
    ensures kept { AreRowLines net.now text.new begins.now shown.new }
{
    let count = net.circuit().nodes() as usize;
    // The first node whose line was not given so far.
    let mut from = 0;
    let mut var = first_not_shown(rows, shown, 0, count);
    while var < count {
        match rows.rest(var) {
            Some(rest) => {
                set_row(net, text, begins, var, rest_text(rest));
                shown.set(var, Some(rest));
            }
            None => {
                write_kept_lines(writer, net, text, begins, from, var);
                write_row(writer, net, rows, var as u32);
                from = var + 1;
            }
        }
        var = first_not_shown(rows, shown, var + 1, count);
    }
    write_kept_lines(writer, net, text, begins, from, count);
}

// Gives the lines of the nodes from one up to another, each by a put of its own.
fn write_kept_lines<K: Sink>(
    writer: &mut Writer<'_, K>,
    net: &Net,
    text: &[u8],
    begins: &[usize],
    from: usize,
    to: usize,
)
    requires kept { AreRowParts net.now (length net.now.names) text.now begins.now }
    requires ordered { from ≤ to }
    requires within { to ≤ length net.now.names }
    ensures gave { Writes K.output K.faults
        (slice_range text.now (slice_index begins.now from) (slice_index begins.now to))
        writer.old writer.new }
    ensures none_waits { NoneWaits writer.old → NoneWaits writer.new }
{
    for node in from..to {
        writer.end_by(kept_lines(net, text, begins, node, node + 1));
    }
}

// The first node from one on that is not seen to rest at what is shown, or the end if there is none.
#[inline(always)]
fn first_not_shown(rows: &Rows, shown: &Rests, from: usize, count: usize) -> usize
    requires from { from ≤ count }
    requires shown { length shown.now ≡ count }
    requires rows { count ≤ length rows.now }
    ensures more { from ≤ result }
    ensures inside { result ≤ count }
    ensures stay { AreShown rows.now shown.now from result }
{
    let mut var = from;
    while var < count {
        if eight_stay(rows, shown, var, count) {
            var += 8;
            continue;
        }
        if !shown.are_in(rows, var, 1) {
            return var;
        }
        var += 1;
    }
    var
}

// What stands after the variable of a row at rest.
#[inline(always)]
fn rest_text(rest: Rest) -> &'static [u8; COMMON]
    ensures { result.now ≡ row_text (row_at_rest rest) }
{
    match (rest.value, rest.counted) {
        (false, true) => b" start 0 A 0 B 0 changes 0 steady",
        (true, true) => b" start 1 A 1 B 1 changes 0 steady",
        (false, false) => b" start 0 A 0 B 0 changes - steady",
        (true, false) => b" start 1 A 1 B 1 changes - steady",
    }
}

// Whether eight nodes from one on rest at what is shown. It is seen of blocks alone, whose first number is a multiple of eight.
#[inline(always)]
fn eight_stay(rows: &Rows, shown: &Rests, first: usize, count: usize) -> bool
    requires first { first ≤ count }
    requires shown { length shown.now ≡ count }
    requires rows { count ≤ length rows.now }
    ensures inside { IsTrue result → first + 8 ≤ count }
    ensures stay { IsTrue result → (i : ℕ) → i < 8 → (rest : Rest)
        × (slice_index_or shown.now (first + i) None ≡ Some rest)
        × (slice_get rows.now (first + i) ≡ Some (row_at_rest rest)) }
{
    if first % 8 != 0 {
        return false;
    }
    if count - first < 8 {
        return false;
    }
    shown.are_in(rows, first, 8)
}

// Writes a row at rest over that of a node.
#[inline(always)]
fn set_row(net: &Net, text: &mut [u8], begins: &[usize], var: usize, common: &[u8; COMMON])
    requires kept { AreRowParts net.now (length net.now.names) text.old begins.now }
    requires var { var < length net.now.names }
    ensures written { text.new ≡
        take (slice_index begins.now (var + 1) - 1 - COMMON) text.old
        ++ (common.now ++ drop (slice_index begins.now (var + 1) - 1) text.old) }
    ensures long { length common.now ≡ COMMON }
{
    set_before(text, begins[var + 1], common);
}

// Writes a row at rest before the last byte of the line that ends at a place.
#[inline(always)]
fn set_before(text: &mut [u8], end: usize, common: &[u8; COMMON])
    requires room { COMMON < end }
    requires within { end ≤ length text.old }
    ensures { text.new
        ≡ take (end - 1 - COMMON) text.old ++ (common.now ++ drop (end - 1) text.old) }
{
    text[end - 1 - COMMON..end - 1].copy_from_slice(common);
}

// The lines of the nodes from one up to another.
#[inline(always)]
fn kept_lines<'t>(net: &Net, text: &'t [u8], begins: &[usize], from: usize, to: usize) -> &'t [u8]
    requires kept { AreRowParts net.now (length net.now.names) text.now begins.now }
    requires ordered { from ≤ to }
    requires within { to ≤ length net.now.names }
    ensures { result.now
        ≡ slice_range text.now (slice_index begins.now from) (slice_index begins.now to) }
{
    bytes_between(text, begins[from], begins[to])
}

// The bytes from one place up to another.
fn bytes_between(text: &[u8], begin: usize, end: usize) -> &[u8]
    requires ordered { begin ≤ end }
    requires within { end ≤ length text.now }
    ensures { result.now ≡ slice_range text.now begin end }
{
    &text[begin..end]
}

/// How many variables are shown. The nodes come first.
pub fn shown_count(net: &Net, show: Show) -> u32
    ensures shown { result ≡ shown_count net.now show }
    ensures circuit { IsCircuit net.now }
{
    match show {
        Show::Nodes => net.circuit().nodes(),
        Show::All => net.len(),
    }
}

// Gives a variable with its values, its number of changes and its class.
fn write_row<K: Sink>(writer: &mut Writer<'_, K>, net: &Net, rows: &Rows, var: u32)
    requires rows { AreByVariable net.now rows.now }
    requires var { IsVariable net.now var }
    ensures gave { (row : Row) → slice_get rows.now var ≡ Some row →
        Writes K.output K.faults (row_line net.now var row) writer.old writer.new }
    ensures none_waits { NoneWaits writer.new }
{
    write_variable(writer, net, var);
    write_pieces(writer, rows.row(var as usize));
    writer.end();
}

// Gives what stands after the variable of a row, piece by piece.
#[inline(always)]
fn write_pieces<K: Sink>(writer: &mut Writer<'_, K>, row: Row)
    ensures { Writes K.output K.faults (row_text row) writer.old writer.new }
{
    writer.three(start_text(row.start), a_text(row.a), b_text(row.b));
    write_changes(writer, row.changes);
    writer.text(spaced_class(row.class));
}

// What stands for a value at the start.
fn start_text(start: bool) -> &'static [u8]
    ensures { result.now ≡ codes " start " ++ letter_of start ∷ [] }
{
    if start { b" start 1" } else { b" start 0" }
}

// What stands for a value in A.
fn a_text(a: Tri) -> &'static [u8]
    ensures { result.now ≡ codes " A " ++ tri_letter a }
{
    match a {
        Zero => b" A 0",
        One => b" A 1",
        Unknown => b" A X",
    }
}

// What stands for a value in B, before the number of changes.
fn b_text(b: Tri) -> &'static [u8]
    ensures { result.now ≡ codes " B " ++ tri_letter b ++ codes " changes " }
{
    match b {
        Zero => b" B 0 changes ",
        One => b" B 1 changes ",
        Unknown => b" B X changes ",
    }
}

// Gives what stands for a number of changes.
fn write_changes<K: Sink>(writer: &mut Writer<'_, K>, changes: Option<Count>)
    ensures { Writes K.output K.faults (changes_word changes) writer.old writer.new }
{
    match changes {
        None => writer.text(b"-"),
        Some(Exact(changes)) => writer.add(&[Long(changes)]),
        Some(Many) => writer.text(b"many"),
    }
}

// The word of a class, after a space.
fn spaced_class(class: Class) -> &'static [u8]
    ensures { result.now ≡ 32 ∷ class_word class }
{
    match class {
        Class::Steady => b" steady",
        Class::Single => b" single",
        Class::Static => b" static",
        Class::MaybeDynamic => b" maybe-dynamic",
        Class::Change => b" change",
        Class::Unsettled => b" unsettled",
    }
}
