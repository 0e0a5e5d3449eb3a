//! A sink in memory, of which no put fails.
ghost use Rattle.std.specs.Prelude.{◌≡◌, [], ◌++◌, OnOk, OnErr, IfErr};

use super::fault::PutFault;
use super::sink::Sink;
use std::alloc::Global;
use std::marker::Model;

/// A sink in memory, of which no put fails. It is seen as the bytes that were written.
#[derive(Drop)]
pub struct PlainSink {
    bytes: Vec<u8>,
}

impl Model for PlainSink {
    ghost use Rattle.std.specs.Prelude.{List, ℕ};

    ghost Value = { List ℕ };

    ghost view = { λ sink. sink.bytes.items };
}

impl PlainSink {
    /// Nothing is written.
    pub fn new(alloc: Global) -> PlainSink
        ensures { result ≡ [] }
    {
        PlainSink {
            bytes: Vec::new(alloc),
        }
    }

    /// What was written so far.
    pub fn bytes(&self) -> &[u8]
        ensures { result.now ≡ self.now }
    {
        self.bytes.as_slice()
    }

    /// What was written, as bytes of their own.
    pub fn into_bytes(self) -> Vec<u8>
        ensures { result.items ≡ self }
    {
        self.bytes
    }
}

impl Sink for PlainSink {
    ghost use Rattle.std.specs.Prelude.{Some};
    ghost use Rattle.hz_outside.specs.WrittenText.{settled};

    ghost output = { λ sink. settled (Some sink) };

    ghost faults = { λ _. 0 };

    fn put(&mut self, piece: &[u8]) -> Result<(), PutFault>
        ensures ok { OnOk result (self.new ≡ self.old ++ piece.now) }
        ensures memory { IfErr result (λ fault. fault ≡ PutFault.Memory) }
        ensures unchanged { IfErr result (λ _. self.new ≡ self.old) }
    {
        let Ok(_) = self.bytes.extend_from_slice(piece) else {
            return Err(PutFault::Memory);
        };
        Ok(())
    }

    fn flush(&mut self) -> Result<(), PutFault>
        ensures done { OnErr result ⊥ }
        ensures same { self.new ≡ self.old }
    {
        Ok(())
    }
}
