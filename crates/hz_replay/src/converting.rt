//! The job `convert`: a run text, written in format 2. Its runs are not replayed.

use hz_net::Net;
use hz_outside::Sink;
use hz_refusal::{OnRuns, Status, status_after};
use hz_run_text::{RunText, write_run_text};
use std::alloc::Global;

/// The job `convert`.
#[derive(Drop)]
pub struct Converts;

impl OnRuns for Converts {
    ghost use Rattle.hz_replay.specs.RunTexts.{IsConvertOutcome};

    ghost judges = { λ _. IsConvertOutcome };

    fn with_runs<K: Sink>(&self, _alloc: Global, net: &Net, runs: &RunText, out: &mut K) -> Status {
        status_after(write_run_text(out, net, runs), Status::Done)
    }
}
