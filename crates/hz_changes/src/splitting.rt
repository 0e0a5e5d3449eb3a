//! The job `split`: the first change of a script that leaves a variable unsettled, and two runs of it that end in different stable
//! states.
ghost use Rattle.std.specs.Prelude.{◌≡◌, [], None, map, All};
ghost use Rattle.std.specs.List.{flat_map};
ghost use Rattle.hz_core.specs.Netlist.{IsCircuit};
ghost use Rattle.hz_net.specs.Network.{IsVariable};
ghost use Rattle.hz_net.specs.Starts.{IsStableStart};
ghost use Rattle.hz_options.specs.Numbers.{IsCap};
ghost use Rattle.hz_run_text.specs.RunPrinted.{run_text};
ghost use Rattle.hz_script.specs.ScriptText.{IsScriptFor};
ghost use Rattle.hz_write.specs.Writer.{Writes, NoneWaits};
ghost use Rattle.hz_write.specs.Writes.{Wrote};
ghost use Rattle.hz_desk.specs.Finding.{finding_of};
ghost use Rattle.hz_split.specs.Attempts.{outcome_of};
ghost use Rattle.hz_refusal.specs.Ends.{Ends};
ghost use Rattle.hz_changes.specs.Splits.{SplitsChanges, SplitsChange, leaves_unsettled, outcome_word, split_line, split_text, closed};
ghost use Rattle.hz_changes.specs.Unsettled.{CanBeSplit};

use hz_desk::{Desk, Finding};
use hz_gmw::Run;
use hz_net::Net;
use hz_options::Options;
use hz_outside::{PutFault, Sink};
use hz_pass::complete;
use hz_refusal::{OnScript, Status, refuse_start, status_after};
use hz_run_text::{printed_runs_are_read, write_end, write_run, write_states};
use hz_script::Script;
use hz_seq::Sequence;
use hz_split::{Outcome, Split};
use hz_write::Piece::{Number, Text};
use hz_write::{Writer, put_line};
use std::alloc::Global;

/// The job `split`, with these options.
#[derive(Drop)]
pub struct Splits {
    pub options: Options,
    ghost cap: { IsCap options.cap },
}

impl OnScript for Splits {
    ghost use Rattle.hz_refusal.specs.Second.{Started};

    ghost judges = { λ job. Started (SplitsChanges job.options.cap) };

    fn with_script<K: Sink>(
        &self,
        alloc: Global,
        net: &Net,
        script: &Script,
        out: &mut K,
    ) -> Status {
        match complete(alloc, net, script.start()) {
            Ok(start) => split(alloc, net, script, start.as_slice(), self.options.cap, out),
            Err(fault) => refuse_start(out, net.circuit(), fault),
        }
    }
}

/// A change of a network that leaves a variable unsettled: its number, and what was found of it.
#[derive(Clone, Copy)]
pub(crate) struct Unsettled<'a> {
    pub(crate) net: &'a Net,
    pub(crate) number: u32,
    pub(crate) finding: &'a Finding,
}

// Makes the changes of a script from a start, up to the first one that leaves a variable unsettled.
fn split<K: Sink>(
    alloc: Global,
    net: &Net,
    script: &Script,
    start: &[bool],
    cap: u64,
    out: &mut K,
) -> Status
    requires circuit { IsCircuit net.now }
    requires script { IsScriptFor net.now script.now }
    requires start { IsStableStart net.now start.now }
    requires cap { IsCap cap }
    ensures { Ends K.output K.faults (SplitsChanges cap net.now start.now script.now.changes)
        out.old out.new result }
{
    let Ok(desk) = Desk::new(alloc, net) else {
        return Status::Memory;
    };
    let Ok(mut sequence) = Sequence::new(alloc, desk, start) else {
        return Status::Memory;
    };
    split_changes(alloc, net, script, cap, &mut sequence, out)
}

// Makes changes, one after the other. The first one that leaves a variable unsettled is the last that is made.
fn split_changes<K: Sink>(
    alloc: Global,
    net: &Net,
    script: &Script,
    cap: u64,
    sequence: &mut Sequence<'_>,
    out: &mut K,
) -> Status
    requires circuit { IsCircuit net.now }
    requires script { IsScriptFor net.now script.now }
    requires cap { IsCap cap }
    requires net { sequence.old.desk.netlist ≡ net.now }
    requires start { IsStableStart net.now sequence.old.start }
    requires goes { sequence.old.stopped ≡ None }
    ensures { Ends K.output K.faults
        (SplitsChanges cap net.now sequence.old.start script.now.changes) out.old out.new
        result }
{
    for number in 0..script.changes() {
        match sequence.next(script.change(number), cap) {
            Ok(finding) => {
                if is_unsettled(finding) {
                    let unsettled = Unsettled {
                        net,
                        number: number as u32 + 1,
                        finding,
                    };
                    return split_change(alloc, &unsettled, out);
                }
            }
            // No change before it left a variable unsettled.
            Err(_) => unreachable!(),
        }
    }
    status_after(put_line(out, &[Text(b"split settled")]), Status::Done)
}

// Whether a change leaves a variable unsettled.
fn is_unsettled(finding: &Finding) -> bool
    ensures { result ≡ leaves_unsettled (finding_of finding.now) }
{
    finding
        .rows
        .values_b()
        .iter()
        .any(|value| value.bit().is_none())
}

// Looks for two runs of a change, and writes what is found.
fn split_change<K: Sink>(alloc: Global, change: &Unsettled<'_>, out: &mut K) -> Status
    requires { CanBeSplit change.now }
    ensures { Ends K.output K.faults
        (SplitsChange change.now.net.now change.now.number (finding_of change.now.finding.now))
        out.old out.new result }
{
    // The law says that what is printed is read as these runs.
    printed_runs_are_read();
    let Ok(mut split) = Split::new(alloc, change.net) else {
        return Status::Memory;
    };
    let outcome = split.search(change.finding.rows.starts(), change.finding);
    let no_step = Run::new(alloc);
    let written = write_split(change, outcome, &split, &no_step, out);
    status_after(written, Status::Done)
}

// Writes what a search came to, and the run text of the runs that it found. Each ends with a cycle without a step.
fn write_split<K: Sink>(
    change: &Unsettled<'_>,
    outcome: Outcome,
    split: &Split<'_>,
    no_step: &Run,
    out: &mut K,
) -> Result<(), PutFault>
    requires change { CanBeSplit change.now }
    requires outcome { outcome ≡ outcome_of split.now.found }
    requires found { All (All (All (IsVariable change.now.net.now))) split.now.found }
    requires no_step { no_step.now.steps ≡ [] }
    ensures { Wrote K.output K.faults
        (split_text change.now.net.now change.now.number (finding_of change.now.finding.now)
        split.now.found)
        out.old out.new result }
{
    let mut writer = Writer::new(out);
    let nodes = change.net.circuit().nodes() as usize;
    write_outcome(&mut writer, change.number, outcome);
    write_states(
        &mut writer,
        change.net.circuit(),
        &change.finding.rows.starts()[..nodes],
        change.finding.input.as_slice(),
    );
    write_found(&mut writer, change.net, split, no_step);
    write_end(&mut writer);
    writer.finish()
}

// Gives the number of a change, and what the search came to.
fn write_outcome<K: Sink>(writer: &mut Writer<'_, K>, number: u32, outcome: Outcome)
    ensures gave { Writes K.output K.faults (split_line number outcome) writer.old writer.new }
    ensures none_waits { NoneWaits writer.new }
{
    writer.line(&[
        Text(b"split change "),
        Number(number),
        Text(b" "),
        Text(outcome_word(outcome)),
    ]);
}

// The word for what a search came to.
fn outcome_word(outcome: Outcome) -> &'static [u8]
    ensures { result.now ≡ outcome_word outcome }
{
    match outcome {
        Outcome::Nowhere => b"none",
        Outcome::OneState => b"one",
        Outcome::Critical => b"critical",
    }
}

// Gives the runs that were found, each with a cycle without a step.
fn write_found<K: Sink>(writer: &mut Writer<'_, K>, net: &Net, split: &Split<'_>, no_step: &Run)
    requires found { All (All (All (IsVariable net.now))) split.now.found }
    requires no_step { no_step.now.steps ≡ [] }
    requires none_waits { NoneWaits writer.old }
    ensures gave { Writes K.output K.faults
        (flat_map (run_text net.now) (map closed split.now.found)) writer.old
        writer.new }
    ensures none_waits { NoneWaits writer.new }
{
    for number in 0..split.found() {
        write_run(writer, net, split.run(number), Some(no_step));
    }
}
