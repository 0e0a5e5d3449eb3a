//! A list of cycles, laid one after the other into one vector.
ghost use Rattle.std.specs.Prelude.{◌≡◌, ◌<◌, [], ◌∷◌, ◌++◌, length, slice_index_or, OnOk, OnErr};

use hz_core::Memory;
use hz_lists::part_at;
use std::alloc::Global;
use std::marker::Model;

// Cycles, each a list of variables.
#[derive(Debug, Drop)]
pub(crate) struct Cycles {
    // The variables of all cycles, one cycle after the other, and where each cycle ends.
    variables: Vec<u32>,
    ends: Vec<u32>,
}

impl Model for Cycles {
    ghost use Rattle.std.specs.Prelude.{ℕ, List, length};
    ghost use Rattle.hz_lists.specs.Parts.{parts_from, EndsAt};

    ghost Value = { List (List ℕ) };

    ghost view = { λ fields. parts_from 0 fields.ends.items fields.variables.items };

    ghost invariant = { λ fields. EndsAt 0 fields.ends.items (length fields.variables.items) };
}

impl Cycles {
    // No cycles. It allocates nothing.
    pub(crate) fn new(alloc: Global) -> Cycles
        ensures { result ≡ [] }
    {
        Cycles {
            variables: Vec::new(alloc),
            ends: Vec::new(alloc),
        }
    }

    pub(crate) fn len(&self) -> usize
        ensures { result ≡ length self.now }
    {
        self.ends.len()
    }

    pub(crate) fn cycle(&self, number: usize) -> &[u32]
        requires { number < length self.now }
        ensures { result.now ≡ slice_index_or self.now number [] }
    {
        part_at(self.variables.as_slice(), self.ends.as_slice(), number)
    }

    // Adds a cycle. Where a cycle ends takes 32 bits, so more variables in all are refused as out of memory.
    pub(crate) fn push(&mut self, cycle: &[u32]) -> Result<(), Memory>
        ensures ok { OnOk result (self.new ≡ self.old ++ cycle.now ∷ []) }
        ensures err { OnErr result (self.new ≡ self.old) }
    {
        let Ok(()) = self.ends.reserve(1) else {
            return Err(Memory);
        };
        let Ok(end) = u32::try_from(self.variables.len() + cycle.len()) else {
            return Err(Memory);
        };
        let Ok(()) = self.variables.extend_from_slice(cycle) else {
            return Err(Memory);
        };
        self.ends.push_reserved(end);
        Ok(())
    }
}
