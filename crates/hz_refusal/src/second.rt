//! The second text: it is read, and then a job does its part with the value, or its least fault is written.
ghost use Rattle.std.specs.Prelude.{◌≡◌, ◌≤◌, ℕ, List, length};
ghost use Rattle.hz_core.specs.Netlist.{Netlist, IsCircuit};
ghost use Rattle.hz_line.specs.Line.{most_text_bytes};
ghost use Rattle.hz_pattern_text.specs.PatternFault.{HasPatternFault};
ghost use Rattle.hz_pattern_text.specs.PatternText.{ArePatternsFor};
ghost use Rattle.hz_pattern_text.specs.PatternValue.{PatternsOf};
ghost use Rattle.hz_run_text.specs.RunFault.{HasRunFault};
ghost use Rattle.hz_run_text.specs.RunText.{IsRunTextFor};
ghost use Rattle.hz_run_text.specs.RunValue.{RunTextOf};
ghost use Rattle.hz_script.specs.ScriptFault.{HasScriptFault};
ghost use Rattle.hz_script.specs.ScriptText.{IsScriptFor};
ghost use Rattle.hz_script.specs.ScriptValue.{ScriptOf};
ghost use Rattle.hz_refusal.specs.Ends.{Ends};
ghost use Rattle.hz_refusal.specs.Second.{OfScript, OfRuns, OfPatterns, IsToldLine};
ghost use Rattle.hz_refusal.specs.declared.status.Status.{Status};

use crate::refusal::refuse_text;
use crate::status::{Ending, Status};
use hz_core::Circuit;
use hz_net::Net;
use hz_outside::Sink;
use hz_pattern_text::{PatternReader, Patterns};
use hz_run_text::{RunText, read_run};
use hz_script::{Script, read_script};
use std::alloc::Global;

/// What a job does with a script. `judges` says which text comes with which status.
pub trait OnScript {
    ghost judges: { Self → Netlist → ScriptOf → Status → List ℕ → Type 0 };

    /// Does the job's part with a script that is read.
    fn with_script<K: Sink>(&self, alloc: Global, net: &Net, script: &Script, out: &mut K) -> Status
        requires circuit { IsCircuit net.now }
        requires script { IsScriptFor net.now script.now }
        ensures { Ends K.output K.faults (judges self.now net.now script.now) out.old out.new
            result };
}

/// What a job does with a run text. `judges` says which text comes with which status.
pub trait OnRuns {
    ghost judges: { Self → Netlist → RunTextOf → Status → List ℕ → Type 0 };

    /// Does the job's part with a run text that is read.
    fn with_runs<K: Sink>(&self, alloc: Global, net: &Net, runs: &RunText, out: &mut K) -> Status
        requires { IsRunTextFor net.now runs.now }
        ensures { Ends K.output K.faults (judges self.now net.now runs.now) out.old out.new
            result };
}

/// What a job does with patterns. `judges` says which text comes with which status.
pub trait OnPatterns {
    ghost judges: { Self → Netlist → PatternsOf → Status → List ℕ → Type 0 };

    /// Does the job's part with patterns that are read.
    fn with_patterns<K: Sink>(
        &self,
        alloc: Global,
        net: &Net,
        patterns: &Patterns,
        out: &mut K,
    ) -> Status
        requires { ArePatternsFor net.now patterns.now }
        ensures { Ends K.output K.faults (judges self.now net.now patterns.now) out.old out.new
            result };
}

// Reads a script, and does a job with it.
pub fn on_script<J: OnScript, K: Sink>(
    alloc: Global,
    job: &J,
    net: &Net,
    text: &[u8],
    out: &mut K,
) -> Ending
    requires { length text.now ≤ most_text_bytes }
    ensures ends { Ends K.output K.faults (OfScript (J.judges job.now) net.now text.now)
        out.old out.new result.status }
    ensures line { IsToldLine (HasScriptFault net.now text.now) result.status result.line }
{
    let circuit = net.circuit();
    match read_script(alloc, circuit, text) {
        Ok(script) => Ending {
            status: job.with_script(alloc, net, &script, out),
            line: 0,
        },
        Err(fault) => Ending {
            status: refuse_text(out, b"script", circuit, fault),
            line: fault.line(),
        },
    }
}

// Reads a run text, and does a job with it.
pub fn on_runs<J: OnRuns, K: Sink>(
    alloc: Global,
    job: &J,
    net: &Net,
    text: &[u8],
    out: &mut K,
) -> Ending
    requires { length text.now ≤ most_text_bytes }
    ensures ends { Ends K.output K.faults (OfRuns (J.judges job.now) net.now text.now)
        out.old out.new result.status }
    ensures line { IsToldLine (HasRunFault net.now text.now) result.status result.line }
{
    match read_run(alloc, net, text) {
        Ok(runs) => Ending {
            status: job.with_runs(alloc, net, &runs, out),
            line: 0,
        },
        Err(fault) => Ending {
            status: refuse_text(out, b"runs", net.circuit(), fault),
            line: fault.line(),
        },
    }
}

// Reads the patterns of a text that was received, and does a job with them.
pub fn on_patterns<J: OnPatterns, K: Sink>(
    alloc: Global,
    job: &J,
    net: &Net,
    reader: PatternReader,
    out: &mut K,
) -> Ending
    requires netlist { reader.netlist ≡ net.now }
    requires long { length reader.received ≤ most_text_bytes }
    ensures ends { Ends K.output K.faults
        (OfPatterns (J.judges job.now) net.now reader.entry.received)
        out.old out.new result.status }
    ensures line { IsToldLine (HasPatternFault net.now reader.entry.received) result.status
        result.line }
{
    match reader.finish() {
        Ok(patterns) => Ending {
            status: job.with_patterns(alloc, net, &patterns, out),
            line: 0,
        },
        Err(fault) => Ending {
            status: refuse_text(out, b"patterns", net.circuit(), fault),
            line: fault.line(),
        },
    }
}
