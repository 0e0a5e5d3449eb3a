//! A script with assumptions of time: it is read, and then a job does its part with it, or its least fault is written.

ghost use Rattle.std.specs.Prelude.{◌≡◌, ◌≤◌, ℕ, Bool, false, List, length, codes};
ghost use Rattle.hz_core.specs.Netlist.{Netlist, IsCircuit};
ghost use Rattle.hz_line.specs.Line.{most_text_bytes};
ghost use Rattle.hz_refusal.specs.Answer.{Prints};
ghost use Rattle.hz_refusal.specs.Ends.{Ends};
ghost use Rattle.hz_refusal.specs.Refusal.{fault_line};
ghost use Rattle.hz_refusal.specs.declared.status.Status.{Status};
ghost use Rattle.hz_timing.specs.TimedFault.{HasTimedFault};
ghost use Rattle.hz_timing.specs.TimedText.{IsTimedScriptFor};
ghost use Rattle.hz_timing.specs.TimedValue.{TimedScriptOf};
ghost use Rattle.hz_timing.specs.Timed.{OfTimed, IsToldTimedLine, TimedPrints, NamesTimedNode};

use crate::fault::TimedFault;
use crate::read::read_timed;
use crate::script::TimedScript;
use hz_core::Circuit;
use hz_net::Net;
use hz_outside::Sink;
use hz_refusal::{Ending, Status, put_at, refuse_text, status_after};
use hz_text::TextFault;
use std::alloc::Global;

/// What a job does with a script with assumptions of time. `judges` says which text comes with which status, and
/// `may_restart` whether a start may stand again in the script.
pub trait OnTimed {
    ghost judges: { Self → Netlist → TimedScriptOf → Status → List ℕ → Type 0 };

    ghost may_restart: { Bool };

    /// Whether a start may stand again in the script.
    fn restarts(&self) -> bool
        ensures { result ≡ may_restart };

    /// Does the job's part with a script that is read.
    fn with_timed<K: Sink>(
        &self,
        alloc: Global,
        net: &Net,
        script: &TimedScript,
        out: &mut K,
    ) -> Status
        requires circuit { IsCircuit net.now }
        requires script { IsTimedScriptFor net.now script.now }
        requires one { may_restart ≡ false → length script.now.parts ≡ 1 }
        ensures { Ends K.output K.faults (judges self.now net.now script.now) out.old out.new
            result };
}

/// Reads a script with assumptions of time, and does a job with it.
pub fn on_timed<J: OnTimed, K: Sink>(
    alloc: Global,
    job: &J,
    net: &Net,
    text: &[u8],
    out: &mut K,
) -> Ending
    requires { length text.now ≤ most_text_bytes }
    ensures ends { Ends K.output K.faults
        (OfTimed J.may_restart (J.judges job.now) net.now text.now)
        out.old out.new result.status }
    ensures line { IsToldTimedLine (HasTimedFault J.may_restart net.now text.now) result.status result.line }
{
    net.keeps_shape();
    match read_timed(alloc, job.restarts(), net, text) {
        Ok(script) => Ending {
            status: job.with_timed(alloc, net, &script, out),
            line: 0,
        },
        Err(fault) => Ending {
            status: refuse_timed(out, net.circuit(), fault),
            line: fault.line(),
        },
    }
}

// Writes why a script with assumptions of time can't be read on a circuit.
fn refuse_timed<K: Sink>(out: &mut K, circuit: &Circuit, fault: TimedFault) -> Status
    requires { NamesTimedNode circuit.now fault }
    ensures ends { Ends K.output K.faults (TimedPrints circuit.now fault) out.old out.new result }
    ensures memory { fault ≡ TimedFault.Text TextFault.Memory → result ≡ Status.Memory }
{
    match fault {
        TimedFault::Text(fault) => refuse_text(out, b"script", circuit, fault),
        TimedFault::Wires { line } => { refuse_line(out, line, b": not two wires of one gate") }
        TimedFault::Number { line } => refuse_line(out, line, b": number"),
        TimedFault::Again { line } => refuse_line(out, line, b": stated twice"),
    }
}

// Writes a fault at a line of a script.
fn refuse_line<K: Sink>(out: &mut K, line: u32, fault: &[u8]) -> Status
    ensures { Ends K.output K.faults
        (Prints Status.Text (fault_line (codes "script") line fault.now)) out.old out.new result }
{
    status_after(put_at(out, b"script", line, fault), Status::Text)
}
