//! The job `edges`: the starts of a script, and the report of its changes.
ghost use Rattle.std.specs.Prelude.{ℕ, Bool, List, MatchResult};
ghost use Rattle.hz_core.specs.Netlist.{IsCircuit};
ghost use Rattle.hz_options.specs.Numbers.{IsCap};
ghost use Rattle.hz_timing.specs.TimedText.{IsTimedScriptFor};
ghost use Rattle.hz_timing.specs.Timed.{AreAcceptedStarts};
ghost use Rattle.hz_edge_reports.specs.StartFaults.{IsFirstStartFault};

use crate::reporting::report;
use hz_net::Net;
use hz_options::Options;
use hz_outside::Sink;
use hz_pass::{StartFault, complete};
use hz_refusal::{Status, refuse_start};
use hz_timing::{OnTimed, TimedScript};
use std::alloc::Global;

/// The job `edges`, with these options.
#[derive(Drop)]
pub struct Edges {
    pub options: Options,
    ghost cap: { IsCap options.cap },
}

impl OnTimed for Edges {
    ghost use Rattle.std.specs.Prelude.{true};
    ghost use Rattle.hz_timing.specs.Timed.{TimedStarted};
    ghost use Rattle.hz_edge_reports.specs.EdgeReports.{ReportsEdges};

    ghost judges = { λ job. TimedStarted (ReportsEdges job.options) };

    ghost may_restart = { true };

    fn restarts(&self) -> bool {
        true
    }

    fn with_timed<K: Sink>(
        &self,
        alloc: Global,
        net: &Net,
        script: &TimedScript,
        out: &mut K,
    ) -> Status {
        match check_starts(alloc, net, script) {
            Ok(()) => report(alloc, net, script, self.options, out),
            Err(fault) => refuse_start(out, net.circuit(), fault),
        }
    }
}

// Whether the starts of all parts can be completed. Nothing of a report is written before that is known.
fn check_starts(alloc: Global, net: &Net, script: &TimedScript) -> Result<(), StartFault>
    requires circuit { IsCircuit net.now }
    requires script { IsTimedScriptFor net.now script.now }
    ensures { MatchResult result
        (λ _. (starts : List (List Bool)) × AreAcceptedStarts net.now script.now.parts starts)
        (λ fault. IsFirstStartFault net.now script.now.parts fault) }
{
    for place in 0..script.parts() {
        complete(alloc, net, script.part(place).start())?;
    }
    Ok(())
}
