//! The job `reset`: what patterns bring about where nobody knows the start, 512 at a time.

use crate::{BatchFault, reset};
use hz_net::Net;
use hz_outside::Sink;
use hz_pattern_text::Patterns;
use hz_plane::Planes;
use hz_refusal::{OnPatterns, Status};
use hz_reset::{outcomes_exist, values_cover};
use std::alloc::Global;

/// The job `reset`.
#[derive(Drop)]
pub struct Resets;

impl OnPatterns for Resets {
    ghost use Rattle.hz_batch.specs.Resets.{IsResetOutcome};

    ghost judges = { λ _. IsResetOutcome };

    fn with_patterns<K: Sink>(
        &self,
        alloc: Global,
        net: &Net,
        patterns: &Patterns,
        out: &mut K,
    ) -> Status {
        values_cover();
        outcomes_exist();
        let Ok(mut planes) = Planes::new(alloc, net) else {
            return Status::Memory;
        };
        match reset(alloc, patterns, &mut planes, out) {
            Ok(()) => Status::Done,
            Err(BatchFault::Sink) => Status::Sink,
            Err(BatchFault::Memory) => Status::Memory,
        }
    }
}
