//! The report of a script's parts and changes.
ghost use Rattle.std.specs.Prelude.{◌≡◌, ◌<◌, ◌+◌, ◌++◌, ℕ, Bool, false, List, None, All, IfSome, length};
ghost use Rattle.hz_core.specs.Netlist.{IsCircuit};
ghost use Rattle.hz_net.specs.Network.{IsVariable};
ghost use Rattle.hz_net.specs.Starts.{IsAcceptedStart, IsStableStart};
ghost use Rattle.hz_script.specs.ScriptText.{IsScriptFor};
ghost use Rattle.hz_write.specs.Writer.{Writes, NoneWaits, has_failed};
ghost use Rattle.hz_write.specs.Writes.{Wrote};
ghost use Rattle.hz_options.specs.Numbers.{IsCap};
ghost use Rattle.hz_refusal.specs.Ends.{Ends};
ghost use Rattle.hz_timing.specs.TimedText.{IsTimedScriptFor};
ghost use Rattle.hz_timing.specs.Timed.{AreAcceptedStarts};
ghost use Rattle.hz_report.specs.Report.{start_line};
ghost use Rattle.hz_edge_reports.specs.EdgeChanges.{AreEdgeAnalyses, ChangeOf, EdgeAnalysis, IsChangeFrom, IsRightChange};
ghost use Rattle.hz_edge_reports.specs.EdgeReports.{ArePartAnalyses, IsEdgeReport, ReportsEdges};
ghost use Rattle.hz_edge_reports.specs.EdgeText.{edge_changes_text, edge_change_text, found_text, parts_text};
ghost use Rattle.hz_edge_reports.specs.Room.{CanBeMade, IsChangeRoom, Leads};
ghost use Rattle.hz_edge_reports.specs.Going.{GoesOn};

use crate::existence::changes_exist;
use crate::finding::Making;
use crate::lines::write_found;
use crate::room::ChangeRoom;
use hz_free::Free;
use hz_net::Net;
use hz_options::{Options, Show};
use hz_outside::{PutFault, Sink};
use hz_pass::complete;
use hz_refusal::{Status, status_after};
use hz_report::{write_feedback, write_netlist, write_start, write_stopped};
use hz_script::Script;
use hz_timing::TimedScript;
use hz_write::Writer;
use std::alloc::Global;

// Writes the report of a script whose starts are accepted.
pub(crate) fn report<K: Sink>(
    alloc: Global,
    net: &Net,
    script: &TimedScript,
    options: Options,
    out: &mut K,
) -> Status
    requires circuit { IsCircuit net.now }
    requires script { IsTimedScriptFor net.now script.now }
    requires starts { (starts : List (List Bool))
        × AreAcceptedStarts net.now script.now.parts starts }
    requires cap { IsCap options.cap }
    ensures { Ends K.output K.faults (λ own text. (starts : List (List Bool))
        × AreAcceptedStarts net.now script.now.parts starts
        × ReportsEdges options net.now starts script.now own text) out.old out.new result }
{
    net.keeps_shape();
    let Ok(free) = Free::build(alloc, net) else {
        return Status::Memory;
    };
    let Ok(mut room) = ChangeRoom::new(alloc, net) else {
        return Status::Memory;
    };
    let making = Making {
        alloc,
        net,
        free: &free,
        assumptions: script.assumptions(),
        cap: options.cap,
    };
    let written = write_report(&making, options, script, &mut room, out);
    status_after(written, Status::Done)
}

// Writes the lines of a script.
fn write_report<K: Sink>(
    making: &Making,
    options: Options,
    script: &TimedScript,
    room: &mut ChangeRoom,
    out: &mut K,
) -> Result<(), PutFault>
    requires making { CanBeMade making.now }
    requires cap { making.now.cap ≡ options.cap }
    requires script { IsTimedScriptFor making.now.net.now script.now }
    requires assumptions { making.now.assumptions.now ≡ script.now.assumptions }
    requires starts { (starts : List (List Bool))
        × AreAcceptedStarts making.now.net.now script.now.parts starts }
    requires room { IsChangeRoom making.now.net.now room.old }
    ensures { (starts : List (List Bool)) × (text : List ℕ)
        × AreAcceptedStarts making.now.net.now script.now.parts starts
        × IsEdgeReport options making.now.net.now starts script.now text
        × Wrote K.output K.faults text out.old out.new result }
{
    let mut writer = Writer::new(out);
    write_netlist(&mut writer, making.net);
    write_feedback(&mut writer, making.net, making.free);
    write_parts(&mut writer, making, options.show, script, room);
    writer.finish()
}

// Writes the parts of a script, one after the other. Once the output failed, or memory ran out, no part is looked at.
fn write_parts<K: Sink>(
    writer: &mut Writer<'_, K>,
    making: &Making,
    show: Show,
    script: &TimedScript,
    room: &mut ChangeRoom,
)
    requires making { CanBeMade making.now }
    requires script { IsTimedScriptFor making.now.net.now script.now }
    requires starts { (starts : List (List Bool))
        × AreAcceptedStarts making.now.net.now script.now.parts starts }
    requires room { IsChangeRoom making.now.net.now room.old }
    requires none_waits { NoneWaits writer.old }
    ensures gave { (starts : List (List Bool)) × (analyses : List (List EdgeAnalysis))
        × AreAcceptedStarts making.now.net.now script.now.parts starts
        × ArePartAnalyses making.now.net.now making.now.cap making.now.assumptions.now
        starts script.now.parts analyses
        × Writes K.output K.faults
        (parts_text making.now.net.now show making.now.assumptions.now 1 starts
        script.now.parts analyses)
        writer.old writer.new }
    ensures none_waits { NoneWaits writer.new }
{
    // The law says that the changes which are left out come to something.
    changes_exist();
    let mut number = 1;
    for place in 0..script.parts() {
        if writer.has_failed() {
            return;
        }
        let part = script.part(place);
        write_part(writer, making, show, part, number, room);
        number += part.changes() as u32;
    }
}

// Writes the start of a part, which is completed once more, and what its changes come to. The first of them has this number.
fn write_part<K: Sink>(
    writer: &mut Writer<'_, K>,
    making: &Making,
    show: Show,
    part: &Script,
    number: u32,
    room: &mut ChangeRoom,
)
    requires making { CanBeMade making.now }
    requires part { IsScriptFor making.now.net.now part.now }
    requires start { (start : List Bool) × IsAcceptedStart making.now.net.now part.now.start start }
    requires room { IsChangeRoom making.now.net.now room.old }
    requires number { number + length part.now.changes < 4294967296 }
    requires none_waits { NoneWaits writer.old }
    ensures gave { (start : List Bool) × (analyses : List EdgeAnalysis)
        × IsAcceptedStart making.now.net.now part.now.start start
        × AreEdgeAnalyses making.now.net.now making.now.cap making.now.assumptions.now
        start part.now.changes analyses
        × Writes K.output K.faults
        (start_line making.now.net.now start
        ++ edge_changes_text making.now.net.now show making.now.assumptions.now
        number part.now.changes analyses)
        writer.old writer.new }
    ensures none_waits { NoneWaits writer.new }
    ensures room { IsChangeRoom making.now.net.now room.new }
{
    // All starts were completed before, so memory is all that can be missing. The law says that the changes come to something then, too.
    changes_exist();
    match complete(making.alloc, making.net, part.start()) {
        Ok(start) => {
            room.begin(making.net, start.as_slice());
            write_start(writer, making.net, start.as_slice());
            write_changes(writer, making, show, part, number, room);
        }
        Err(_) => writer.give_up(),
    }
}

// Writes what the changes of a part come to, one after the other. The first has this number. Once the output failed, or memory ran out, no
// change is made.
fn write_changes<K: Sink>(
    writer: &mut Writer<'_, K>,
    making: &Making,
    show: Show,
    part: &Script,
    number: u32,
    room: &mut ChangeRoom,
)
    requires making { CanBeMade making.now }
    requires part { IsScriptFor making.now.net.now part.now }
    requires room { IsChangeRoom making.now.net.now room.old }
    requires start { IsStableStart making.now.net.now room.old.start.items }
    requires goes { room.old.stopped ≡ None }
    requires number { number + length part.now.changes < 4294967296 }
    requires none_waits { NoneWaits writer.old }
    ensures gave { (analyses : List EdgeAnalysis)
        × AreEdgeAnalyses making.now.net.now making.now.cap making.now.assumptions.now
        room.old.start.items part.now.changes analyses
        × Writes K.output K.faults
        (edge_changes_text making.now.net.now show making.now.assumptions.now number
        part.now.changes analyses)
        writer.old writer.new }
    ensures none_waits { NoneWaits writer.new }
    ensures room { IsChangeRoom making.now.net.now room.new }
{
    changes_exist();
    for place in 0..part.changes() {
        if writer.has_failed() {
            return;
        }
        write_next(
            writer,
            making,
            show,
            number + place as u32,
            part.change(place),
            room,
        );
    }
}

// Makes the next change, unless a variable stops it, and writes its outcome. No line of it waits for what comes next.
fn write_next<K: Sink>(
    writer: &mut Writer<'_, K>,
    making: &Making,
    show: Show,
    number: u32,
    change: &[(u32, bool)],
    room: &mut ChangeRoom,
)
    requires making { CanBeMade making.now }
    requires change { All (λ pair. pair.0 < making.now.net.now.inputs) change.now }
    requires room { IsChangeRoom making.now.net.now room.old }
    requires stable { room.old.stopped ≡ None →
        IsStableStart making.now.net.now room.old.start.items }
    requires inside { IfSome room.old.stopped (IsVariable making.now.net.now) }
    ensures gave { (analysis : EdgeAnalysis)
        × GoesOn making.now change.now analysis (has_failed writer.new) room.old room.new
        × Writes K.output K.faults
        (edge_change_text making.now.net.now show making.now.assumptions.now number
        change.now analysis)
        writer.old writer.new }
    ensures none_waits { NoneWaits writer.new }
    ensures room { IsChangeRoom making.now.net.now room.new }
{
    match room.stopped {
        Some(var) => write_stopped(writer, making.net, number, change, var),
        None => write_made(writer, making, show, number, change, room),
    }
}

// Makes a change, writes what is found of it, and goes on. If memory runs out, nothing more is written.
fn write_made<K: Sink>(
    writer: &mut Writer<'_, K>,
    making: &Making,
    show: Show,
    number: u32,
    change: &[(u32, bool)],
    room: &mut ChangeRoom,
)
    requires making { CanBeMade making.now }
    requires change { All (λ pair. pair.0 < making.now.net.now.inputs) change.now }
    requires room { IsChangeRoom making.now.net.now room.old }
    requires stable { IsStableStart making.now.net.now room.old.start.items }
    ensures gave { (found : ChangeOf)
        × IsChangeFrom making.now.net.now room.old.start.items change.now found
        × IsRightChange making.now.net.now making.now.cap making.now.assumptions.now found
        × (has_failed writer.new ≡ false → Leads making.now.net.now found room.new)
        × Writes K.output K.faults
        (found_text making.now.net.now show making.now.assumptions.now number
        change.now found)
        writer.old writer.new }
    ensures none_waits { NoneWaits writer.new }
    ensures room { IsChangeRoom making.now.net.now room.new }
{
    changes_exist();
    room.take_input(making.net, change);
    match room.find(making) {
        Ok(()) => {
            write_found(writer, making, show, number, change, room);
            room.go_on(making.net);
        }
        Err(_) => writer.give_up(),
    }
}
