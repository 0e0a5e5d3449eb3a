//! The job `batch`: patterns, 512 at a time.

use crate::{BatchFault, batch};
use hz_net::Net;
use hz_outside::Sink;
use hz_pattern_text::Patterns;
use hz_plane::Planes;
use hz_refusal::{OnPatterns, Status};
use std::alloc::Global;

/// The job `batch`.
#[derive(Drop)]
pub struct Batches;

impl OnPatterns for Batches {
    ghost use Rattle.hz_batch.specs.Batches.{IsBatchOutcome};

    ghost judges = { λ _. IsBatchOutcome };

    fn with_patterns<K: Sink>(
        &self,
        alloc: Global,
        net: &Net,
        patterns: &Patterns,
        out: &mut K,
    ) -> Status {
        let Ok(mut planes) = Planes::new(alloc, net) else {
            return Status::Memory;
        };
        match batch(alloc, patterns, &mut planes, out) {
            Ok(()) => Status::Done,
            Err(BatchFault::Sink) => Status::Sink,
            Err(BatchFault::Memory) => Status::Memory,
        }
    }
}
