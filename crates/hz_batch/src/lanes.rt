//! The line of a lane.
ghost use Rattle.std.specs.Prelude.{◌≡◌, ◌<◌, ◌*◌, ◌/◌, List, [], length, slice_get, Some};
ghost use Rattle.std.specs.List.{slice_index_or};
ghost use Rattle.hz_core.specs.declared.tri.Tri.{Tri};
ghost use Rattle.hz_core.specs.declared.tri.Tri.TheVariants.{Zero};
ghost use Rattle.hz_net.specs.Network.{network_of};
ghost use Rattle.hz_net.specs.TernaryStarts.{SettlesTo};
ghost use Rattle.hz_plane.specs.declared.stage.Stage.TheVariants.{Completed, Spread, Settled};
ghost use Rattle.hz_plane.specs.Lanes.{IsFilledStart};
ghost use Rattle.hz_plane.specs.Loads.{Loaded};
ghost use Rattle.hz_net.specs.PassEnds.{ResultOfAExists, ResultOfBExists};
ghost use Rattle.hz_batch.specs.Outputs.{output_values};
ghost use Rattle.hz_pattern_text.specs.PatternText.{IsPatternOf};
ghost use Rattle.hz_pattern_text.specs.PatternValue.{PatternOf};
ghost use Rattle.hz_write.specs.Writer.{Writes, NoneWaits};
ghost use Rattle.hz_batch.specs.BatchText.{ending_line, refused_pattern_line};
ghost use Rattle.hz_batch.specs.Blocks.{load_of};
ghost use Rattle.hz_batch.specs.Columns.{HasColumns};
ghost use Rattle.hz_batch.specs.Comes.{comes_to, held_by, kept_at};
ghost use Rattle.hz_batch.specs.Counts.{IsMarkOf, settled_mark};
ghost use Rattle.hz_batch.specs.Inside.{IsWork};
ghost use Rattle.hz_batch.specs.Keys.{HaveKeys};
ghost use Rattle.hz_batch.specs.Kept.{AreColumnsFor, HoldBoth};
ghost use Rattle.hz_batch.specs.Laws.{AreLaws};
ghost use Rattle.hz_batch.specs.PatternEnd.{PatternEnd, IsPatternEnd};
ghost use Rattle.hz_batch.specs.Lines.{IsLineFor};

use crate::blocks::Work;
use crate::columns::Columns;
use crate::counts::Mark;
use crate::job::Job;
use crate::keys::pair_at;
use crate::outputs::OutputLine;
use hz_core::Circuit;
use hz_net::Net;
use hz_outside::Sink;
use hz_plane::{LaneFault, Planes};
use hz_write::Piece::{Number, Text};
use hz_write::Writer;

// Gives the line of a lane, whose pattern has a number, and says what is counted of it.
pub(crate) fn write_lane<K: Sink>(
    writer: &mut Writer<'_, K>,
    work: &Work<'_>,
    planes: &Planes<'_>,
    at: Lane,
    columns: &Columns,
    line: &mut OutputLine<'_>,
) -> Mark
    requires laws { AreLaws }
    requires work { IsWork work.now }
    requires net { planes.now.netlist ≡ work.now.net.now }
    requires stage { planes.now.stage ≡ Settled }
    requires lane { at.lane < 512 }
    requires loaded { (loaded : Loaded)
        × (slice_get planes.now.lanes at.lane ≡ Some (Some loaded)) }
    requires columns { HoldBoth work.now.net.now (kept_at work.now.job) planes.now.lanes
        columns.now }
    requires line { IsLineFor work.now.net.now line.old }
    ensures line { IsLineFor work.now.net.now line.new }
    ensures gave { (pattern : PatternOf) → IsPatternOf work.now.net.now.inputs pattern
        → slice_get planes.now.lanes at.lane
        ≡ Some (load_of (held_by work.now.job work.now.patterns.now.held) pattern)
        → (ending : PatternEnd)
        × comes_to work.now.job work.now.net.now work.now.patterns.now.held pattern ending
        × IsMarkOf ending result
        × Writes K.output K.faults (ending_line work.now.net.now at.number ending)
        writer.old writer.new }
    ensures none_waits { NoneWaits writer.new }
{
    work.net.keeps_shape();
    match work.job {
        Job::Batch => write_ending(writer, work.net, planes, at, columns, line),
        Job::Reset => write_values(writer, work.net, planes, at, columns, line),
    }
}

// Gives the line of a lane that lists a start: the gate for which the start is refused, or what
// both algorithms come to.
fn write_ending<K: Sink>(
    writer: &mut Writer<'_, K>,
    net: &Net,
    planes: &Planes<'_>,
    at: Lane,
    columns: &Columns,
    line: &mut OutputLine<'_>,
) -> Mark
    requires a_exists { ResultOfAExists }
    requires b_exists { ResultOfBExists }
    requires net { planes.now.netlist ≡ net.now }
    requires stage { planes.now.stage ≡ Settled }
    requires lane { at.lane < 512 }
    requires loaded { (loaded : Loaded)
        × (slice_get planes.now.lanes at.lane ≡ Some (Some loaded)) }
    requires columns { HoldBoth net.now Spread planes.now.lanes columns.now }
    requires line { IsLineFor net.now line.old }
    ensures line { IsLineFor net.now line.new }
    ensures gave { (loaded : Loaded) → slice_get planes.now.lanes at.lane ≡ Some (Some loaded)
        → (ending : PatternEnd) × IsPatternEnd net.now loaded.listed loaded.input ending
        × IsMarkOf ending result
        × Writes K.output K.faults (ending_line net.now at.number ending) writer.old writer.new }
    ensures none_waits { NoneWaits writer.new }
{
    net.keeps_shape();
    match planes.fault(at.lane) {
        Some(LaneFault::Open { gate }) => {
            write_refused(writer, net.circuit(), at.number, b" open ", gate);
            Mark::Open
        }
        Some(LaneFault::Unstable { gate }) => {
            write_refused(writer, net.circuit(), at.number, b" unstable ", gate);
            Mark::Unstable
        }
        None => {
            set_line(net, columns, at.lane, line);
            line.write(writer, at.number);
            settled_mark(planes.is_unsettled(at.lane))
        }
    }
}

// Gives the line of a lane that lists the inputs alone: what the first bits bring about, and what
// that settles to.
fn write_values<K: Sink>(
    writer: &mut Writer<'_, K>,
    net: &Net,
    planes: &Planes<'_>,
    at: Lane,
    columns: &Columns,
    line: &mut OutputLine<'_>,
) -> Mark
    requires net { planes.now.netlist ≡ net.now }
    requires stage { planes.now.stage ≡ Settled }
    requires lane { at.lane < 512 }
    requires columns { HoldBoth net.now Completed planes.now.lanes columns.now }
    requires line { IsLineFor net.now line.old }
    ensures line { IsLineFor net.now line.new }
    ensures gave { (loaded : Loaded) (first settled : List Tri)
        → slice_get planes.now.lanes at.lane ≡ Some (Some loaded)
        → IsFilledStart net.now loaded.listed first
        → SettlesTo (network_of net.now) loaded.input first settled
        → IsMarkOf (PatternEnd.Settled first settled) result
        × Writes K.output K.faults
        (ending_line net.now at.number (PatternEnd.Settled first settled)) writer.old writer.new }
    ensures none_waits { NoneWaits writer.new }
{
    net.keeps_shape();
    set_line(net, columns, at.lane, line);
    line.write(writer, at.number);
    let stays = planes.is_unsettled(at.lane);
    settled_mark(stays)
}

/// A lane, and the number of the pattern that it holds.
#[derive(Clone, Copy, Debug)]
pub(crate) struct Lane {
    pub(crate) lane: u32,
    pub(crate) number: u32,
}

// Gives the line of a pattern whose start is refused for a gate.
#[tactic(auto, using(hz_write::proofs::Writers::writes_same), unfolding(crate::specs::BatchText::refused_pattern_line, hz_write::specs::Writes::line_of))]
fn write_refused<'p, K: Sink>(
    writer: &mut Writer<'_, K>,
    circuit: &'p Circuit,
    number: u32,
    word: &'p [u8],
    gate: u32,
)
    requires { gate < length circuit.now.names }
    ensures gave { Writes K.output K.faults (refused_pattern_line circuit.now number word.now gate)
        writer.old writer.new }
    ensures none_waits { NoneWaits writer.new }
{
    writer.line(&[Number(number), Text(word), Text(circuit.name(gate))]);
}

// Gives the outputs of a line their values in a lane.
fn set_line(net: &Net, columns: &Columns, lane: u32, line: &mut OutputLine<'_>)
    requires lane { lane < 512 }
    requires columns { AreColumnsFor net.now columns.now }
    requires keys { HaveKeys columns.now.firsts.items columns.now.seconds.items
        columns.now.keys.items }
    requires line { IsLineFor net.now line.old }
    ensures line { IsLineFor net.now line.new }
    ensures values { (a b : List Tri) → HasColumns net.now.outputs columns.now.firsts.items lane a
        → HasColumns net.now.outputs columns.now.seconds.items lane b
        → line.new.values ≡ output_values net.now a b }
{
    let table = columns.table.as_slice();
    let keys = columns.keys.as_slice();
    for place in 0..net.circuit().outputs().len() {
        let pair = pair_at(table, &keys[place], lane);
        line.set(place, pair.0, pair.1);
    }
}

// What is counted of a pattern for which there are values.
fn settled_mark(unsettled: bool) -> Mark
    ensures { result ≡ settled_mark unsettled }
{
    if unsettled {
        Mark::Unsettled
    } else {
        Mark::Steady
    }
}
