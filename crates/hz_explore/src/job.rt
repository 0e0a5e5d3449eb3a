//! The job `explore`: the start of a script, and the report of the exploration from it.
ghost use Rattle.hz_options.specs.Numbers.{IsCap};

use crate::exploring::report;
use hz_net::Net;
use hz_options::Options;
use hz_outside::Sink;
use hz_pass::complete;
use hz_refusal::{Status, refuse_start};
use hz_timing::{OnTimed, TimedScript};
use std::alloc::Global;

/// The job `explore`, with these options. The script's start doesn't stand again.
#[derive(Drop)]
pub struct Explores {
    pub options: Options,
    ghost cap: { IsCap options.cap },
}

impl OnTimed for Explores {
    ghost use Rattle.std.specs.Prelude.{false};
    ghost use Rattle.hz_timing.specs.Timed.{TimedStarted};
    ghost use Rattle.hz_explore.specs.ExploreReports.{ReportsExploring};

    ghost may_restart = { false };

    ghost judges = { λ job. TimedStarted (ReportsExploring job.options) };

    fn restarts(&self) -> bool {
        false
    }

    fn with_timed<K: Sink>(
        &self,
        alloc: Global,
        net: &Net,
        script: &TimedScript,
        out: &mut K,
    ) -> Status {
        match complete(alloc, net, script.part(0).start()) {
            Ok(start) => report(alloc, net, script, start.as_slice(), self.options, out),
            Err(fault) => refuse_start(out, net.circuit(), fault),
        }
    }
}
