//! States that are kept in the order in which they are found.
ghost use Rattle.std.specs.Prelude.{◌≡◌, ◌<◌, [], length, not, Some, IfOk, OnOk, OnErr};
ghost use Rattle.std.specs.List.{IsDistinct};
ghost use Rattle.hz_states.specs.States.{has_state, state_number, same_state, state_at, with_state};

use crate::hashing::StateHashing;
use crate::state::State;
use indexmap::IndexSet;
use std::alloc::{AllocError, Global};
use std::marker::Model;

/// A state that was put among others: its number, and whether it was not among them.
#[derive(Clone, Copy)]
pub struct Added {
    pub number: u32,
    pub is_new: bool,
}

/// The states of a circuit that were found so far, each once. The number of a state is its place in the order in which they were
/// found, and begins with 0.
///
/// A state is a list of bits, one for each node. It is kept eight bits to a byte: 65,536 states of up to 128 nodes take 4 MB with all
/// that the table needs for them. Each state of more nodes has an allocation besides.
///
/// States are hashed with a key. If the key is a digest of the netlist, states that were chosen to collide without it are as good
/// as others.
#[derive(Drop)]
pub struct States {
    set: IndexSet<State, StateHashing>,
    alloc: Global,
}

impl Model for States {
    ghost use Rattle.std.specs.Prelude.{Bool, List};
    ghost use Rattle.hz_states.specs.States.{HoldsStates};

    ghost Value = { List (List Bool) };

    ghost view = { λ states. states.set.keys };

    ghost invariant = { λ states. HoldsStates states.set.keys };
}

impl States {
    /// No state. States are hashed with this key.
    pub fn new(alloc: Global, key: u64) -> States
        ensures { result ≡ [] }
    {
        States {
            set: IndexSet::with_hasher(alloc, StateHashing::new(key)),
            alloc,
        }
    }

    /// How many states there are. Each stands once.
    pub fn len(&self) -> usize
        ensures count { result ≡ length self.now }
        ensures distinct { IsDistinct same_state self.now }
    {
        self.set.len()
    }

    /// The number of a state, if it is there.
    pub fn find(&self, state: &[bool]) -> Result<Option<u32>, AllocError>
        ensures { IfOk result (λ number. number ≡ state_number self.now state.now) }
    {
        let sought = State::new(self.alloc, state)?;
        let Some(place) = self.set.get_index_of(&sought) else {
            return Ok(None);
        };
        Ok(Some(place as u32))
    }

    /// Puts a state at the end, if it is not there.
    pub fn add(&mut self, state: &[bool]) -> Result<Added, AllocError>
        ensures added { OnOk result (self.new ≡ with_state self.old state.now) }
        ensures number { IfOk result (λ added. state_number self.new state.now ≡ Some added.number) }
        ensures is_new { IfOk result (λ added. added.is_new ≡ not (has_state self.old state.now)) }
        ensures err { OnErr result (self.new ≡ self.old) }
    {
        let Ok(_) = u32::try_from(self.set.len()) else {
            return Err(AllocError);
        };
        let state = State::new(self.alloc, state)?;
        let Ok((place, is_new)) = self.set.insert_full(state) else {
            return Err(AllocError);
        };
        Ok(Added {
            number: place as u32,
            is_new,
        })
    }

    /// Writes the bits of the state with a number.
    pub fn read(&self, number: u32, state: &mut [bool])
        requires number { number < length self.now }
        requires long { length state.old ≡ length (state_at self.now number) }
        ensures { state.new ≡ state_at self.now number }
    {
        self.set.as_slice()[number as usize].read(state);
    }
}
