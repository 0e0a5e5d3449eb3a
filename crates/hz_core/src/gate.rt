//! The gates of a circuit, as it keeps them.
ghost use Rattle.std.specs.Prelude.{◌≡◌, [], OnOk, OnErr, nat_lt, length};
ghost use Rattle.hz_core.specs.Netlist.{with_source};
ghost use Rattle.hz_core.specs.Pins.{with_sources};

use crate::{Kind, Memory};
use smallvec::SmallVec;
use std::alloc::Global;
use std::marker::Model;

// A gate: its kind, and the nodes that its pins read. Most gates have few pins, which need no allocation.
#[derive(Debug, Drop)]
pub(crate) struct GateEntry {
    kind: Kind,
    sources: SmallVec<u32, 4>,
}

impl Model for GateEntry {
    ghost use Rattle.hz_core.specs.Netlist.{Gate};

    ghost Value = { Gate };

    ghost view = { λ gate. record { kind = gate.kind; sources = gate.sources.items } };
}

impl GateEntry {
    // A gate without pins.
    pub(crate) fn new(alloc: Global, kind: Kind) -> GateEntry
        ensures { result ≡ record { kind = kind; sources = [] } }
    {
        GateEntry {
            kind,
            sources: SmallVec::new(alloc),
        }
    }

    pub(crate) fn kind(&self) -> Kind
        ensures { result ≡ self.now.kind }
    {
        self.kind
    }

    pub(crate) fn sources(&self) -> &[u32]
        ensures { result.now ≡ self.now.sources }
    {
        self.sources.as_slice()
    }

    pub(crate) fn has_pins(&self) -> bool
        ensures { result ≡ nat_lt 0 (length self.now.sources) }
    {
        !self.sources.is_empty()
    }

    // Appends a pin.
    pub(crate) fn connect(&mut self, source: u32) -> Result<(), Memory>
        ensures ok { OnOk result (self.new ≡ with_source self.old source) }
        ensures err { OnErr result (self.new ≡ self.old) }
    {
        let Ok(()) = self.sources.push(source) else {
            return Err(Memory);
        };
        Ok(())
    }

    // Appends pins.
    pub(crate) fn connect_all(&mut self, sources: &[u32]) -> Result<(), Memory>
        ensures ok { OnOk result (self.new ≡ with_sources self.old sources.now) }
        ensures err { OnErr result (self.new ≡ self.old) }
    {
        let Ok(()) = self.sources.extend_from_slice(sources) else {
            return Err(Memory);
        };
        Ok(())
    }
}
