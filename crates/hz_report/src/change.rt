//! The lines of a change.
ghost use Rattle.std.specs.Prelude.{◌≡◌, ◌<◌, ◌++◌, length, codes, All};
ghost use Rattle.hz_net.specs.Network.{AreByVariable, IsInput, IsVariable};
ghost use Rattle.hz_write.specs.Writer.{Writes, NoneWaits};
ghost use Rattle.hz_write.specs.Writes.{newline};
ghost use Rattle.hz_text.specs.VariableWord.{spaced_word};
ghost use Rattle.hz_run_text.specs.RunPrinted.{run_text_printed};
ghost use Rattle.hz_desk.specs.Finding.{finding_of};
ghost use Rattle.hz_report.specs.Report.{change_line, rounds_line, races_line, runs_of_finding, change_text, stopped_text};

use crate::plate::Plate;
use hz_desk::Finding;
use hz_net::Net;
use hz_outside::Sink;
use hz_run_text::{write_end, write_format, write_run};
use hz_text::{write_assignments, write_variable};
use hz_write::Piece::{Number, Text};
use hz_write::Writer;

/// Gives what a change assigns, the rounds of Algorithms A and B, the line of each variable that is shown, the numbers of race
/// states, and the three runs as a run text.
///
/// Changes are counted from 1. The finding is that of the change. The plate shows what it showed.
#[tactic(auto, using(hz_write::proofs::Writers::writes_then), unfolding(crate::specs::Report::change_text))]
pub fn write_change<K: Sink>(
    writer: &mut Writer<'_, K>,
    plate: &mut Plate<'_>,
    number: u32,
    change: &[(u32, bool)],
    finding: &Finding,
)
    requires change { All (λ pair. pair.0 < length plate.old.netlist.names) change.now }
    requires rows { AreByVariable plate.old.netlist finding.now.rows }
    requires input { IsInput plate.old.netlist finding.now.input }
    requires spread { All (All (IsVariable plate.old.netlist)) finding.now.spread.steps }
    requires settle { All (All (IsVariable plate.old.netlist)) finding.now.settle.steps }
    requires cycle { All (All (IsVariable plate.old.netlist)) finding.now.cycle.steps }
    ensures gave { Writes K.output K.faults
        (change_text plate.old.netlist plate.old.show number change.now (finding_of finding.now))
        writer.old writer.new }
    ensures none_waits { NoneWaits writer.new }
    ensures plate { plate.new ≡ plate.old }
{
    let net = plate.net();
    write_assigned(writer, net, number, change);
    write_rounds(writer, finding);
    plate.write_rows(writer, &finding.rows);
    write_races(writer, finding);
    write_runs(writer, plate, finding);
}

/// Gives what a change assigns that is not made, and the variable that stops it.
///
/// Changes are counted from 1.
#[tactic(auto, using(hz_write::proofs::Writers::writes_then), unfolding(crate::specs::Report::stopped_text))]
pub fn write_stopped<K: Sink>(
    writer: &mut Writer<'_, K>,
    net: &Net,
    number: u32,
    change: &[(u32, bool)],
    var: u32,
)
    requires change { All (λ pair. pair.0 < length net.now.names) change.now }
    requires var { IsVariable net.now var }
    ensures gave { Writes K.output K.faults (stopped_text net.now number change.now var) writer.old
        writer.new }
    ensures none_waits { NoneWaits writer.new }
{
    write_assigned(writer, net, number, change);
    write_stop(writer, net, var);
}

/// Gives what a change assigns, in the order of the script. Changes are counted from 1.
#[tactic(auto, using(hz_write::proofs::Writers::writes_then), unfolding(crate::specs::Report::change_line, hz_text::specs::Printed::statement_text))]
pub fn write_assigned<K: Sink>(
    writer: &mut Writer<'_, K>,
    net: &Net,
    number: u32,
    change: &[(u32, bool)],
)
    requires { All (λ pair. pair.0 < length net.now.names) change.now }
    ensures gave { Writes K.output K.faults (change_line net.now number change.now) writer.old
        writer.new }
    ensures none_waits { NoneWaits writer.new }
{
    writer.add(&[Text(b"change "), Number(number)]);
    write_assignments(writer, net.circuit(), change);
    writer.end();
}

// Gives the variable that stops a change.
fn write_stop<K: Sink>(writer: &mut Writer<'_, K>, net: &Net, var: u32)
    requires { IsVariable net.now var }
    ensures gave { Writes K.output K.faults (codes "stopped" ++ spaced_word net.now var ++ newline)
        writer.old writer.new }
    ensures none_waits { NoneWaits writer.new }
{
    writer.text(b"stopped ");
    write_variable(writer, net, var);
    writer.end();
}

// Gives the rounds of A and of B.
#[tactic(auto, using(hz_write::proofs::Writers::writes_same), unfolding(crate::specs::Report::rounds_line))]
pub(crate) fn write_rounds<K: Sink>(writer: &mut Writer<'_, K>, finding: &Finding)
    ensures gave { Writes K.output K.faults (rounds_line (finding_of finding.now)) writer.old
        writer.new }
    ensures none_waits { NoneWaits writer.new }
{
    writer.line(&[
        Text(b"rounds A "),
        Number(finding.rounds_a),
        Text(b" B "),
        Number(finding.rounds_b),
    ]);
}

// Gives how many race states each run has.
#[tactic(auto, using(hz_write::proofs::Writers::writes_same), unfolding(crate::specs::Report::races_line))]
fn write_races<K: Sink>(writer: &mut Writer<'_, K>, finding: &Finding)
    ensures gave { Writes K.output K.faults (races_line (finding_of finding.now)) writer.old
        writer.new }
    ensures none_waits { NoneWaits writer.new }
{
    writer.line(&[
        Text(b"races spread "),
        Number(finding.spread_races),
        Text(b" settle "),
        Number(finding.settle_races),
        Text(b" cycle "),
        Number(finding.cycle_races),
    ]);
}

// Gives the run text: the start and the new input, the spread run, and the settle run with its cycle.
fn write_runs<K: Sink>(writer: &mut Writer<'_, K>, plate: &mut Plate<'_>, finding: &Finding)
    requires rows { AreByVariable plate.old.netlist finding.now.rows }
    requires input { IsInput plate.old.netlist finding.now.input }
    requires spread { All (All (IsVariable plate.old.netlist)) finding.now.spread.steps }
    requires settle { All (All (IsVariable plate.old.netlist)) finding.now.settle.steps }
    requires cycle { All (All (IsVariable plate.old.netlist)) finding.now.cycle.steps }
    ensures gave { Writes K.output K.faults
        (run_text_printed plate.old.netlist
        (runs_of_finding plate.old.netlist (finding_of finding.now)))
        writer.old writer.new }
    ensures none_waits { NoneWaits writer.new }
    ensures plate { plate.new ≡ plate.old }
{
    let net = plate.net();
    write_format(writer, net.circuit());
    let nodes = net.circuit().nodes() as usize;
    plate.write_bits(writer, b"start", &finding.rows.starts()[..nodes]);
    plate.write_bits(writer, b"input", finding.input.as_slice());
    write_run(writer, net, &finding.spread, None);
    write_run(writer, net, &finding.settle, Some(&finding.cycle));
    write_end(writer);
}
