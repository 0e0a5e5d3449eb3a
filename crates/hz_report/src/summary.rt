//! The summary of a change.
ghost use Rattle.std.specs.Prelude.{◌≡◌, ◌<◌, EachIndex, slice_index};
ghost use Rattle.hz_write.specs.Writer.{Writes, NoneWaits};
ghost use Rattle.hz_desk.specs.Finding.{finding_of};
ghost use Rattle.hz_report.specs.Report.{class_place, classes_line, count_at, run_line, summary_text};

use crate::change::write_rounds;
use crate::head::write_netlist;
use hz_desk::{Class, Finding, Rows};
use hz_gmw::Run;
use hz_net::Net;
use hz_outside::Sink;
use hz_write::Piece::{Count, Text};
use hz_write::Writer;

/// Gives the size of the network, the rounds of Algorithms A and B, how many variables have each class, and the number of steps
/// and of flips of each run.
pub fn write_summary<K: Sink>(writer: &mut Writer<'_, K>, net: &Net, finding: &Finding)
    ensures gave { Writes K.output K.faults (summary_text net.now (finding_of finding.now))
        writer.old writer.new }
    ensures none_waits { NoneWaits writer.new }
{
    write_netlist(writer, net);
    write_rounds(writer, finding);
    write_classes(writer, &finding.rows);
    write_size(writer, b"spread", &finding.spread);
    write_size(writer, b"settle", &finding.settle);
    write_size(writer, b"cycle", &finding.cycle);
}

// Gives how many variables have each class.
pub(crate) fn write_classes<K: Sink>(writer: &mut Writer<'_, K>, rows: &Rows)
    ensures gave { Writes K.output K.faults (classes_line rows.now) writer.old writer.new }
    ensures none_waits { NoneWaits writer.new }
{
    let [
        steady,
        single,
        static_hazards,
        maybe_dynamic,
        change,
        unsettled,
    ] = count_classes(rows);
    writer.line(&[
        Text(b"classes steady "),
        Count(steady),
        Text(b" single "),
        Count(single),
        Text(b" static "),
        Count(static_hazards),
        Text(b" maybe-dynamic "),
        Count(maybe_dynamic),
        Text(b" change "),
        Count(change),
        Text(b" unsettled "),
        Count(unsettled),
    ]);
}

// How many rows have each class, in the order of the line. One pass counts them all.
fn count_classes(rows: &Rows) -> [usize; 6]
    ensures { EachIndex result (λ place. slice_index result place ≡ count_at rows.now place) }
{
    let mut totals = [0; 6];
    for var in 0..rows.len() {
        totals[class_place(rows.row(var).class)] += 1;
    }
    totals
}

// The place of a class in the line of classes.
fn class_place(class: Class) -> usize
    ensures place { result ≡ class_place class }
    ensures within { result < 6 }
{
    match class {
        Class::Steady => 0,
        Class::Single => 1,
        Class::Static => 2,
        Class::MaybeDynamic => 3,
        Class::Change => 4,
        Class::Unsettled => 5,
    }
}

// Gives how many steps and flips a run has.
#[tactic(auto, using(hz_write::proofs::Writers::writes_same), unfolding(crate::specs::Report::run_line))]
pub(crate) fn write_size<K: Sink>(writer: &mut Writer<'_, K>, name: &[u8], run: &Run)
    ensures gave { Writes K.output K.faults (run_line name.now run.now.steps) writer.old
        writer.new }
    ensures none_waits { NoneWaits writer.new }
{
    writer.line(&[
        Text(name),
        Text(b" steps "),
        Count(run.steps()),
        Text(b" flips "),
        Count(run.flips()),
    ]);
}
