//! The job `demo`: the circuit and the script of a number are made and analysed, and what is found is summarised.
ghost use Rattle.std.specs.Prelude.{◌≡◌, length};
ghost use Rattle.hz_core.specs.Netlist.{IsCircuit};
ghost use Rattle.hz_net.specs.Starts.{IsStableStart};
ghost use Rattle.hz_options.specs.Numbers.{IsCap, IsDemoNumber};
ghost use Rattle.hz_desk.specs.Finding.{finding_of};
ghost use Rattle.hz_report.specs.Report.{summary_text};
ghost use Rattle.hz_script.specs.ScriptText.{IsScriptFor};
ghost use Rattle.hz_write.specs.Writes.{Wrote};
ghost use Rattle.hz_refusal.specs.Ends.{Ends};
ghost use Rattle.hz_changes.specs.Demos.{IsDemoOutcome, IsSummaryOutcome};

use hz_desk::{Desk, Finding};
use hz_gen::{GenFault, demo_starts, make};
use hz_net::Net;
use hz_outside::{PutFault, Sink};
use hz_pass::complete;
use hz_refusal::{Status, refuse_start, status_after};
use hz_report::write_summary;
use hz_script::Script;
use hz_seq::Sequence;
use hz_write::Writer;
use std::alloc::Global;

// Analyses the circuit of a number, and writes the summary of its one change.
pub fn demo<K: Sink>(alloc: Global, number: u32, cap: u64, out: &mut K) -> Status
    requires number { IsDemoNumber number }
    requires cap { IsCap cap }
    ensures { Ends K.output K.faults (IsDemoOutcome number cap) out.old out.new result }
{
    // The law says that no start is refused.
    demo_starts();
    let (circuit, script) = match make(alloc, number) {
        Ok(made) => made,
        Err(GenFault::Memory) => return Status::Memory,
        // The words take no number for which there is no circuit.
        Err(GenFault::Range) => unreachable!(),
    };
    let Ok(net) = Net::build(alloc, circuit) else {
        return Status::Memory;
    };
    match complete(alloc, &net, script.start()) {
        Ok(start) => summarise(alloc, &net, &script, start.as_slice(), cap, out),
        Err(fault) => refuse_start(out, net.circuit(), fault),
    }
}

// Analyses the one change of a script from a start, and writes the summary.
fn summarise<K: Sink>(
    alloc: Global,
    net: &Net,
    script: &Script,
    start: &[bool],
    cap: u64,
    out: &mut K,
) -> Status
    requires circuit { IsCircuit net.now }
    requires script { IsScriptFor net.now script.now }
    requires one { length script.now.changes ≡ 1 }
    requires start { IsStableStart net.now start.now }
    requires cap { IsCap cap }
    ensures { Ends K.output K.faults (IsSummaryOutcome net.now cap start.now script.now.changes)
        out.old out.new result }
{
    let Ok(desk) = Desk::new(alloc, net) else {
        return Status::Memory;
    };
    let Ok(mut sequence) = Sequence::new(alloc, desk, start) else {
        return Status::Memory;
    };
    match sequence.next(script.change(0), cap) {
        Ok(finding) => status_after(put_summary(out, net, finding), Status::Done),
        // Nothing stops a first change.
        Err(_) => unreachable!(),
    }
}

// Writes the summary of a change.
fn put_summary<K: Sink>(out: &mut K, net: &Net, finding: &Finding) -> Result<(), PutFault>
    ensures { Wrote K.output K.faults (summary_text net.now (finding_of finding.now)) out.old
        out.new result }
{
    let mut writer = Writer::new(out);
    write_summary(&mut writer, net, finding);
    writer.finish()
}
