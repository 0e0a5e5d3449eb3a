//! The report of a script's changes from its start.
ghost use Rattle.std.specs.Prelude.{◌≡◌, ◌<◌, ℕ, List, None, All, IfSome};
ghost use Rattle.hz_core.specs.Netlist.{IsCircuit};
ghost use Rattle.hz_net.specs.Network.{IsVariable};
ghost use Rattle.hz_net.specs.Starts.{IsStableStart};
ghost use Rattle.hz_script.specs.ScriptText.{IsScriptFor};
ghost use Rattle.hz_write.specs.Writer.{Writes, NoneWaits};
ghost use Rattle.hz_write.specs.Writes.{Wrote};
ghost use Rattle.hz_seq.specs.Analyses.{Analysis, AreAnalyses, GoesOn};
ghost use Rattle.hz_options.specs.Numbers.{IsCap};
ghost use Rattle.hz_refusal.specs.Ends.{Ends};
ghost use Rattle.hz_changes.specs.Reports.{analysis_text, analyses_text, IsReport, Reports};

use hz_desk::{Desk, findings_exist};
use hz_net::Net;
use hz_options::Options;
use hz_outside::{PutFault, Sink};
use hz_reach::run_counts;
use hz_refusal::{Status, status_after};
use hz_report::{Plate, write_change, write_head, write_stopped};
use hz_run_text::printed_runs_are_read;
use hz_script::Script;
use hz_seq::Sequence;
use hz_write::Writer;
use std::alloc::Global;

// Writes the report of a script from a start. All room for the analyses is made first.
pub(crate) fn report<K: Sink>(
    alloc: Global,
    net: &Net,
    script: &Script,
    start: &[bool],
    options: Options,
    out: &mut K,
) -> Status
    requires circuit { IsCircuit net.now }
    requires script { IsScriptFor net.now script.now }
    requires start { IsStableStart net.now start.now }
    requires cap { IsCap options.cap }
    ensures { Ends K.output K.faults (Reports options net.now start.now script.now.changes) out.old
        out.new result }
{
    let Ok(desk) = Desk::new(alloc, net) else {
        return Status::Memory;
    };
    let Ok(mut sequence) = Sequence::new(alloc, desk, start) else {
        return Status::Memory;
    };
    let Ok(mut plate) = Plate::new(alloc, net, options.show, script.changes()) else {
        return Status::Memory;
    };
    let written = write_report(script, start, options, &mut sequence, &mut plate, out);
    status_after(written, Status::Done)
}

// Writes the lines of a script, whose changes a sequence is about to make.
fn write_report<K: Sink>(
    script: &Script,
    start: &[bool],
    options: Options,
    sequence: &mut Sequence<'_>,
    plate: &mut Plate<'_>,
    out: &mut K,
) -> Result<(), PutFault>
    requires circuit { IsCircuit plate.old.netlist }
    requires script { IsScriptFor plate.old.netlist script.now }
    requires start { IsStableStart plate.old.netlist start.now }
    requires cap { IsCap options.cap }
    requires show { plate.old.show ≡ options.show }
    requires net { sequence.old.desk.netlist ≡ plate.old.netlist }
    requires begins { sequence.old.start ≡ start.now }
    requires goes { sequence.old.stopped ≡ None }
    ensures { (text : List ℕ) × IsReport options plate.old.netlist start.now script.now.changes text
        × Wrote K.output K.faults text out.old out.new result }
{
    // The laws say that the printed runs have few steps, and that what is printed is read as these runs.
    run_counts();
    printed_runs_are_read();
    let mut writer = Writer::new(out);
    write_head(&mut writer, plate.net(), sequence.desk().free(), start);
    write_changes(&mut writer, plate, script, options.cap, sequence);
    writer.finish()
}

// Writes what the changes of a script come to, one after the other. Once the output failed no change is analysed.
fn write_changes<K: Sink>(
    writer: &mut Writer<'_, K>,
    plate: &mut Plate<'_>,
    script: &Script,
    cap: u64,
    sequence: &mut Sequence<'_>,
)
    requires circuit { IsCircuit plate.old.netlist }
    requires script { IsScriptFor plate.old.netlist script.now }
    requires cap { IsCap cap }
    requires net { sequence.old.desk.netlist ≡ plate.old.netlist }
    requires start { IsStableStart plate.old.netlist sequence.old.start }
    requires goes { sequence.old.stopped ≡ None }
    ensures gave { (analyses : List Analysis)
        × AreAnalyses plate.old.netlist cap sequence.old.start script.now.changes analyses
        × Writes K.output K.faults
        (analyses_text plate.old.netlist plate.old.show 1 script.now.changes analyses) writer.old
        writer.new }
    ensures none_waits { NoneWaits writer.old → NoneWaits writer.new }
{
    // The law says that the changes which are left out have findings.
    plate.net().keeps_shape();
    findings_exist();
    for number in 0..script.changes() {
        if writer.has_failed() {
            return;
        }
        write_next(
            writer,
            plate,
            number as u32 + 1,
            script.change(number),
            cap,
            sequence,
        );
    }
}

// Makes the next change, and writes its outcome. No line of it waits for what comes next.
fn write_next<K: Sink>(
    writer: &mut Writer<'_, K>,
    plate: &mut Plate<'_>,
    number: u32,
    change: &[(u32, bool)],
    cap: u64,
    sequence: &mut Sequence<'_>,
)
    requires circuit { IsCircuit plate.old.netlist }
    requires change { All (λ pair. pair.0 < plate.old.netlist.inputs) change.now }
    requires cap { IsCap cap }
    requires net { sequence.old.desk.netlist ≡ plate.old.netlist }
    requires stable { sequence.old.stopped ≡ None →
        IsStableStart plate.old.netlist sequence.old.start }
    requires inside { IfSome sequence.old.stopped (IsVariable plate.old.netlist) }
    ensures gave { (analysis : Analysis) × GoesOn cap change.now analysis sequence.old sequence.new
        × Writes K.output K.faults
        (analysis_text plate.old.netlist plate.old.show number change.now analysis) writer.old
        writer.new }
    ensures none_waits { NoneWaits writer.new }
    ensures plate { plate.new ≡ plate.old }
{
    match sequence.next(change, cap) {
        Ok(finding) => write_change(writer, plate, number, change, finding),
        Err(stopped) => write_stopped(writer, plate.net(), number, change, stopped.var),
    }
}
