//! All patterns, and the last line.
ghost use Rattle.std.specs.Prelude.{◌≡◌, ◌≤◌, ℕ, List, false, length, IfOk, OnOk};
ghost use Rattle.hz_pattern_text.specs.PatternText.{ArePatternsFor};
ghost use Rattle.hz_write.specs.Writer.{Writes, has_failed};
ghost use Rattle.hz_write.specs.Writes.{Wrote};
ghost use Rattle.hz_batch.specs.Answer.{WroteBatch};
ghost use Rattle.hz_batch.specs.BatchText.{IsBatchText};
ghost use Rattle.hz_batch.specs.Blocks.{block_count, planes_after};
ghost use Rattle.hz_batch.specs.Comes.{IsTextOf, loaded_by};
ghost use Rattle.hz_batch.specs.Counts.{no_counts};
ghost use Rattle.hz_batch.specs.Inside.{IsWork, IsRoomFor};
ghost use Rattle.hz_batch.specs.Laws.{AreLaws};
ghost use Rattle.hz_batch.specs.ResetText.{IsResetText};
ghost use Rattle.hz_batch.specs.Blocks.{without_held};

use crate::blocks::{Room, Work, write_blocks};
use crate::columns::columns_for;
use crate::counts::Counts;
use crate::fault::BatchFault;
use crate::held::held_at_start;
use crate::job::Job;
use crate::outputs::OutputLine;
use hz_core::Memory;
use hz_net::{Net, passes_end};
use hz_outside::{PutFault, Sink};
use hz_pass::starts_are_decided;
use hz_pattern_text::Patterns;
use hz_plane::{Planes, listed_inputs_fill};
use hz_reset::{held_is_forgotten, values_exist};
use hz_write::Writer;
use std::alloc::Global;

/// Writes the line of each pattern, and then how many there are of each kind. The patterns are for
/// the network of the planes.
pub fn batch<K: Sink>(
    alloc: Global,
    patterns: &Patterns,
    planes: &mut Planes<'_>,
    out: &mut K,
) -> Result<(), BatchFault>
    requires patterns { ArePatternsFor planes.old.netlist patterns.now }
    ensures wrote { (text : List ℕ) × IsBatchText planes.old.netlist patterns.now text
        × WroteBatch K.output K.faults text out.old out.new result }
    ensures planes { OnOk result
        (planes.new ≡ planes_after patterns.now planes.old
        (block_count (length patterns.now.patterns))) }
    ensures looked { (blocks : ℕ) × (blocks ≤ block_count (length patterns.now.patterns))
        × (planes.new ≡ planes_after patterns.now planes.old blocks) }
{
    match write_text(alloc, planes.net(), patterns, Job::Batch, planes, out) {
        Ok(()) => Ok(()),
        Err(PutFault::Failed) => Err(BatchFault::Sink),
        Err(PutFault::Memory) => Err(BatchFault::Memory),
    }
}

/// Writes for each pattern what its bits bring about if nothing is known of a start but the held
/// gates, and then for how many patterns some variable stays X.
pub fn reset<K: Sink>(
    alloc: Global,
    patterns: &Patterns,
    planes: &mut Planes<'_>,
    out: &mut K,
) -> Result<(), BatchFault>
    requires patterns { ArePatternsFor planes.old.netlist patterns.now }
    ensures wrote { (text : List ℕ) × IsResetText planes.old.netlist patterns.now text
        × WroteBatch K.output K.faults text out.old out.new result }
    ensures planes { OnOk result
        (planes.new ≡ planes_after (without_held patterns.now) planes.old
        (block_count (length patterns.now.patterns))) }
    ensures looked { (blocks : ℕ) × (blocks ≤ block_count (length patterns.now.patterns))
        × (planes.new ≡ planes_after (without_held patterns.now) planes.old blocks) }
{
    match write_text(alloc, planes.net(), patterns, Job::Reset, planes, out) {
        Ok(()) => Ok(()),
        Err(PutFault::Failed) => Err(BatchFault::Sink),
        Err(PutFault::Memory) => Err(BatchFault::Memory),
    }
}

// Writes the text of patterns.
fn write_text<K: Sink>(
    alloc: Global,
    net: &Net,
    patterns: &Patterns,
    job: Job,
    planes: &mut Planes<'_>,
    out: &mut K,
) -> Result<(), PutFault>
    requires patterns { ArePatternsFor net.now patterns.now }
    requires net { planes.old.netlist ≡ net.now }
    ensures wrote { (text : List ℕ) × IsTextOf job net.now patterns.now text
        × Wrote K.output K.faults text out.old out.new result }
    ensures planes { OnOk result
        (planes.new ≡ planes_after (loaded_by job patterns.now) planes.old
        (block_count (length patterns.now.patterns))) }
    ensures looked { (blocks : ℕ) × (blocks ≤ block_count (length patterns.now.patterns))
        × (planes.new ≡ planes_after (loaded_by job patterns.now) planes.old blocks) }
{
    laws_hold();
    net.keeps_shape();
    let Ok(held) = held_at_start(alloc, job, patterns.held()) else {
        return Err(PutFault::Memory);
    };
    let Ok(mut room) = room_for(alloc, net) else {
        return Err(PutFault::Memory);
    };
    let work = Work {
        job,
        net,
        patterns,
        held: held.as_slice(),
    };
    let mut writer = Writer::new(out);
    write_all(&mut writer, &work, planes, &mut room);
    writer.finish()
}

// Every pattern comes to something, and planes that list the inputs alone hold what these bring
// about.
fn laws_hold()
    ensures { AreLaws }
{
    starts_are_decided();
    passes_end();
    values_exist();
    held_is_forgotten();
    listed_inputs_fill();
}

// The room for blocks.
fn room_for<'n>(alloc: Global, net: &'n Net) -> Result<Room<'n>, Memory>
    ensures room { IfOk result (IsRoomFor net.now) }
    ensures counts { IfOk result (λ room. room.counts ≡ no_counts) }
{
    let circuit = net.circuit();
    let line = OutputLine::new(alloc, circuit)?;
    let columns = columns_for(alloc, circuit)?;
    Ok(Room {
        line,
        columns,
        counts: Counts::new(),
    })
}

// Gives the lines of all patterns, and the last one.
fn write_all<K: Sink>(
    writer: &mut Writer<'_, K>,
    work: &Work<'_>,
    planes: &mut Planes<'_>,
    room: &mut Room<'_>,
)
    requires laws { AreLaws }
    requires work { IsWork work.now }
    requires net { planes.old.netlist ≡ work.now.net.now }
    requires room { IsRoomFor work.now.net.now room.old }
    requires counts { room.old.counts ≡ no_counts }
    ensures gave { (text : List ℕ)
        × IsTextOf work.now.job work.now.net.now work.now.patterns.now text
        × Writes K.output K.faults text writer.old writer.new }
    ensures planes { has_failed writer.new ≡ false
        → planes.new ≡ planes_after (loaded_by work.now.job work.now.patterns.now) planes.old
        (block_count (length work.now.patterns.now.patterns)) }
    ensures looked { (blocks : ℕ) × (blocks ≤ block_count (length work.now.patterns.now.patterns))
        × (planes.new
        ≡ planes_after (loaded_by work.now.job work.now.patterns.now) planes.old blocks) }
{
    write_blocks(writer, work, planes, room);
    if writer.has_failed() {
        return;
    }
    room.counts.write(writer, work.job, work.patterns.count());
}
