//! A sink in memory, with puts that fail.
ghost use Rattle.std.specs.Prelude.{◌≡◌, ◌≤◌, [], ◌∷◌, ◌++◌, None, OnOk, OnErr, IfErr};
ghost use Rattle.hz_outside.specs.MemSink.{empty_sink, taken_next, taken_at, put_by, PutsLess};

use super::fault::{Memory, PutFault};
use super::sink::Sink;
use std::alloc::Global;
use std::marker::Model;

/// A put that fails after it took some bytes.
#[derive(Drop)]
struct FailingPut {
    call: u64,
    taken: usize,
}

impl Model for FailingPut {
    ghost use Rattle.hz_outside.specs.MemSink as memory;

    ghost Value = { memory.FailingPut };

    ghost view = { λ put. record { call = put.call; taken = put.taken } };
}

/// A sink in memory, for tests of what is generic over [`Sink`].
///
/// Calls of `put` are numbered from 1. A call in a list takes at most that many bytes of its piece and
/// fails; of a call that is listed twice the first counts.
#[derive(Drop)]
pub struct MemSink {
    bytes: Vec<u8>,
    failing: Vec<FailingPut>,
    calls: u64,
    faults: u64,
}

impl Model for MemSink {
    ghost use Rattle.hz_outside.specs.MemSink.{SinkState};

    ghost Value = { SinkState };

    ghost view = { λ sink. record {
      bytes = sink.bytes.items;
      failing = sink.failing.items;
      calls = sink.calls;
      faults = sink.faults;
    } };
}

impl MemSink {
    /// Nothing is written, and no put fails.
    pub fn new(alloc: Global) -> MemSink
        ensures { result ≡ empty_sink }
    {
        MemSink {
            bytes: Vec::new(alloc),
            failing: Vec::new(alloc),
            calls: 0,
            faults: 0,
        }
    }

    /// Lets the put of this number fail after at most that many bytes of its piece.
    pub fn fail(&mut self, call: u64, taken: usize) -> Result<(), Memory>
        ensures ok { OnOk result (self.new ≡ record self.old {
          failing = self.old.failing ++ record { call = call; taken = taken } ∷ [];
        }) }
        ensures err { OnErr result (self.new ≡ self.old) }
    {
        let Ok(_) = self.failing.push(FailingPut { call, taken }) else {
            return Err(Memory);
        };
        Ok(())
    }

    /// What was written so far.
    pub fn bytes(&self) -> &[u8]
        ensures { result.now ≡ self.now.bytes }
    {
        self.bytes.as_slice()
    }
}

impl Sink for MemSink {
    ghost use Rattle.std.specs.Prelude.{Some};
    ghost use Rattle.hz_outside.specs.WrittenText.{settled};

    ghost output = { λ sink. settled (Some sink.bytes) };

    ghost faults = { λ sink. sink.faults };

    fn put(&mut self, piece: &[u8]) -> Result<(), PutFault>
        ensures ok { OnOk result (taken_next self.old ≡ None) }
        ensures whole { OnOk result (self.new ≡ put_by self.old piece.now) }
        ensures err { IfErr result (λ fault. PutsLess self.old piece.now fault self.new) }
        ensures never_falls { self.old.faults ≤ self.new.faults }
    {
        self.calls = self.calls.saturating_add(1);
        let failure = taken_at(self.failing.as_slice(), self.calls);
        let taken = failure.unwrap_or(piece.len()).min(piece.len());
        let Ok(_) = self.bytes.extend_from_slice(&piece[..taken]) else {
            return Err(PutFault::Memory);
        };
        if failure.is_none() {
            return Ok(());
        }
        self.faults = self.faults.saturating_add(1);
        Err(PutFault::Failed)
    }

    fn flush(&mut self) -> Result<(), PutFault>
        ensures done { OnErr result ⊥ }
        ensures same { self.new ≡ self.old }
    {
        Ok(())
    }
}

/// How many bytes the call of this number takes at most, if it fails.
fn taken_at(failing: &[FailingPut], call: u64) -> Option<usize>
    ensures { result ≡ taken_at failing.now call }
{
    for put in failing {
        if put.call == call {
            return Some(put.taken);
        }
    }
    None
}
