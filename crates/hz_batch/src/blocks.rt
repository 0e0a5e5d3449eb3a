//! Blocks of patterns.
ghost use Rattle.std.specs.Prelude.{◌≡◌, ◌<◌, ◌≤◌, ◌+◌, ◌*◌, ◌^◌, ◌-◌, ℕ, List, false, length, min, take, drop};
ghost use Rattle.hz_plane.specs.declared.stage.Stage.TheVariants.{Loading, Completed, Spread, Settled};
ghost use Rattle.hz_write.specs.Writer.{Writes, NoneWaits, has_failed};
ghost use Rattle.hz_batch.specs.Blocks.{lanes_with, block_count, planes_after};
ghost use Rattle.hz_batch.specs.BatchText.{ending_lines};
ghost use Rattle.hz_batch.specs.Columns.{AreColumns};
ghost use Rattle.hz_batch.specs.Counts.{AddsCounts, AreWithin, no_counts};
ghost use Rattle.hz_batch.specs.Comes.{comes_to, held_by, loaded_by, kept_at};
ghost use Rattle.hz_batch.specs.Each.{AreEach};
ghost use Rattle.hz_batch.specs.Inside.{IsWork, IsRoomFor};
ghost use Rattle.hz_batch.specs.Kept.{HoldBoth};
ghost use Rattle.hz_batch.specs.Laws.{AreLaws};
ghost use Rattle.hz_batch.specs.PatternEnd.{PatternEnd};
ghost use Rattle.hz_batch.specs.Written.{AreWritten};

use crate::columns::{Columns, keep_keys, keep_values};
use crate::counts::Counts;
use crate::job::Job;
use crate::lanes::{Lane, write_lane};
use crate::outputs::OutputLine;
use hz_net::Net;
use hz_outside::Sink;
use hz_pattern_text::Patterns;
use hz_plane::{LaneValues, Planes};
use hz_write::Writer;

/// How many patterns a block has.
pub(crate) const BLOCK: usize = 512;

/// What a block is made of.
#[derive(Drop)]
pub(crate) struct Work<'w> {
    pub(crate) job: Job,
    pub(crate) net: &'w Net,
    pub(crate) patterns: &'w Patterns,
    /// The gates that are held at the start.
    pub(crate) held: &'w [(u32, bool)],
}

/// What is used anew for each block, and what is counted.
#[derive(Drop)]
pub(crate) struct Room<'w> {
    pub(crate) line: OutputLine<'w>,
    pub(crate) columns: Columns,
    pub(crate) counts: Counts,
}

// Gives the lines of all blocks. Once a put failed, no further block is looked at.
pub(crate) fn write_blocks<K: Sink>(
    writer: &mut Writer<'_, K>,
    work: &Work<'_>,
    planes: &mut Planes<'_>,
    room: &mut Room<'_>,
)
    requires laws { AreLaws }
    requires work { IsWork work.now }
    requires net { planes.old.netlist ≡ work.now.net.now }
    requires room { IsRoomFor work.now.net.now room.old }
    requires counts { room.old.counts ≡ no_counts }
    ensures gave { (endings : List PatternEnd)
        × AreEach (comes_to work.now.job work.now.net.now work.now.patterns.now.held)
        work.now.patterns.now.patterns endings
        × Writes K.output K.faults (ending_lines work.now.net.now 1 endings) writer.old writer.new
        × (has_failed writer.new ≡ false → AddsCounts endings no_counts room.new.counts) }
    ensures planes { has_failed writer.new ≡ false
        → planes.new ≡ planes_after (loaded_by work.now.job work.now.patterns.now) planes.old
        (block_count (length work.now.patterns.now.patterns)) }
    ensures looked { (blocks : ℕ) × (blocks ≤ block_count (length work.now.patterns.now.patterns))
        × (planes.new
        ≡ planes_after (loaded_by work.now.job work.now.patterns.now) planes.old blocks) }
{
    work.net.keeps_shape();
    for block in 0..work.patterns.count().div_ceil(BLOCK) {
        if writer.has_failed() {
            return;
        }
        write_block(writer, work, block * BLOCK, planes, room);
    }
}

// Gives the lines of the block that begins with a pattern.
fn write_block<K: Sink>(
    writer: &mut Writer<'_, K>,
    work: &Work<'_>,
    first: usize,
    planes: &mut Planes<'_>,
    room: &mut Room<'_>,
)
    requires laws { AreLaws }
    requires work { IsWork work.now }
    requires first { first < length work.now.patterns.now.patterns }
    requires net { planes.old.netlist ≡ work.now.net.now }
    requires room { IsRoomFor work.now.net.now room.old }
    requires counts { AreWithin first room.old.counts }
    ensures room { IsRoomFor work.now.net.now room.new }
    ensures gave { AreWritten K.output K.faults work.now.net.now
        (comes_to work.now.job work.now.net.now work.now.patterns.now.held)
        (take 512 (drop first work.now.patterns.now.patterns))
        (first + 1) writer.old writer.new room.old.counts room.new.counts }
    ensures planes { planes.new ≡ record planes.old {
      stage = Settled;
      settles = min (planes.old.settles + 1) (2 ^ 64 - 1);
      lanes = lanes_with (held_by work.now.job work.now.patterns.now.held)
          (take 512 (drop first work.now.patterns.now.patterns));
    } }
{
    let lanes = (work.patterns.count() - first).min(BLOCK) as u32;
    load(work, first, lanes, planes);
    planes.complete();
    spread_and_keep(work, planes, room.columns.firsts.as_mut_slice());
    planes.settle();
    keep_values(work.net, planes, room.columns.seconds.as_mut_slice());
    keep_keys(&mut room.columns);
    write_lanes(writer, work, planes, first, lanes, room);
}

// Loads patterns into the first lanes.
fn load(work: &Work<'_>, first: usize, lanes: u32, planes: &mut Planes<'_>)
    requires work { IsWork work.now }
    requires lanes { lanes ≤ 512 }
    requires last { first + lanes ≤ length work.now.patterns.now.patterns }
    requires net { planes.old.netlist ≡ work.now.net.now }
    ensures { planes.new ≡ record planes.old {
      stage = Loading;
      lanes = lanes_with (held_by work.now.job work.now.patterns.now.held)
          (take lanes (drop first work.now.patterns.now.patterns));
    } }
{
    work.net.keeps_shape();
    let bits = work.patterns.bits(first, lanes as usize);
    planes.load_block(lanes, bits, work.held);
}

// Makes Algorithm A, and keeps the first values of the outputs: those that it comes to, or if
// nothing is known of a start those that the first bits bring about, before it.
fn spread_and_keep(work: &Work<'_>, planes: &mut Planes<'_>, columns: &mut [LaneValues])
    requires net { planes.old.netlist ≡ work.now.net.now }
    requires stage { planes.old.stage ≡ Completed }
    requires count { length columns.old ≡ length work.now.net.now.outputs }
    ensures planes { planes.new ≡ record planes.old { stage = Spread } }
    ensures count { length columns.new ≡ length columns.old }
    ensures columns { AreColumns work.now.net.now (kept_at work.now.job) planes.old.lanes
        work.now.net.now.outputs columns.new }
{
    match work.job {
        Job::Batch => {
            planes.spread();
            keep_values(work.net, planes, columns);
        }
        Job::Reset => {
            keep_values(work.net, planes, columns);
            planes.spread();
        }
    }
}

// Gives the lines of the first lanes.
fn write_lanes<K: Sink>(
    writer: &mut Writer<'_, K>,
    work: &Work<'_>,
    planes: &Planes<'_>,
    first: usize,
    lanes: u32,
    room: &mut Room<'_>,
)
    requires laws { AreLaws }
    requires work { IsWork work.now }
    requires lanes { lanes ≤ 512 }
    requires last { first + lanes ≤ length work.now.patterns.now.patterns }
    requires net { planes.now.netlist ≡ work.now.net.now }
    requires stage { planes.now.stage ≡ Settled }
    requires loaded { planes.now.lanes ≡ lanes_with
        (held_by work.now.job work.now.patterns.now.held)
        (take lanes (drop first work.now.patterns.now.patterns)) }
    requires columns { HoldBoth work.now.net.now (kept_at work.now.job) planes.now.lanes
        room.old.columns }
    requires room { IsRoomFor work.now.net.now room.old }
    requires counts { AreWithin first room.old.counts }
    ensures room { IsRoomFor work.now.net.now room.new }
    ensures gave { AreWritten K.output K.faults work.now.net.now
        (comes_to work.now.job work.now.net.now work.now.patterns.now.held)
        (take lanes (drop first work.now.patterns.now.patterns))
        (first + 1) writer.old writer.new room.old.counts room.new.counts }
{
    for lane in 0..lanes {
        let at = Lane {
            lane,
            number: first as u32 + lane + 1,
        };
        let mark = write_lane(writer, work, planes, at, &room.columns, &mut room.line);
        room.counts.add(mark);
    }
}
