//! States as the keys of a table.
ghost use Rattle.std.specs.Prelude.{◌≡◌, length, IfOk};
ghost use Rattle.std.specs.Cmp.{bool_eq_equiv, partial_equiv_from_equiv};
ghost use Rattle.std.proofs.lemmas.Cmp.{lists_equiv};
ghost use Rattle.hz_states.specs.States.{same_state};
ghost use Rattle.hz_states.specs.Key.{same_writes, writes_of};

use crate::packing::{Bytes, bit_of, pack};
use std::alloc::{AllocError, Global};
use std::hash::{Hash, Hasher};
use std::marker::Model;

// A state, eight bits to a byte.
#[derive(Debug, Drop)]
pub(crate) struct State {
    count: usize,
    bytes: Bytes,
}

impl Model for State {
    ghost use Rattle.std.specs.Prelude.{◌≡◌, Bool, List};
    ghost use Rattle.hz_states.specs.Packing.{packed, unpacked};

    ghost Value = { List Bool };

    ghost view = { λ state. unpacked state.count state.bytes.items };

    ghost invariant = { λ state. state.bytes.items ≡ packed (unpacked state.count state.bytes.items) };
}

impl State {
    // The state with these bits.
    #[tactic(auto, using(crate::proofs::PackingLemmas::packed_kept, crate::proofs::PackingLemmas::packed_read))]
    pub(crate) fn new(alloc: Global, bits: &[bool]) -> Result<State, AllocError>
        ensures { IfOk result (λ state. state ≡ bits.now) }
    {
        let bytes = pack(alloc, bits)?;
        Ok(State {
            count: bits.len(),
            bytes,
        })
    }

    // Writes the bits of the state.
    pub(crate) fn read(&self, bits: &mut [bool])
        requires { length bits.old ≡ length self.now }
        ensures { bits.new ≡ self.now }
    {
        for place in 0..bits.len() {
            bits[place] = bit_of(self.bytes.as_slice(), place);
        }
    }
}

impl PartialEq for State {
    ghost eq = { same_state };

    ghost laws = { partial_equiv_from_equiv (lists_equiv bool_eq_equiv) };

    fn eq(&self, other: &Self) -> bool {
        self.count == other.count && self.bytes == other.bytes
    }
}

impl Eq for State {
    ghost laws = { lists_equiv bool_eq_equiv };
}

impl Hash for State {
    ghost hash_input = { writes_of };

    ghost respects_eq = { same_writes };

    fn hash<H: Hasher>(&self, state: &mut H) {
        state.write(self.bytes.as_slice());
    }
}
