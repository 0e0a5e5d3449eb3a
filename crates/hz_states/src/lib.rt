//! The states of a circuit that are found one after the other, as its behaviour is explored: each is kept once, and has a number.
//!
//! | Module | What lives in it |
//! |---|---|
//! | `states` | [`States`]: states in the order in which they were found |
//! | `state` | a state as the key of a table, eight bits to a byte |
//! | `packing` | eight bits to a byte, and the bits of bytes |
//! | `hashing` | the hash of a state, with a key |
#![tactic(auto)]

mod hashing;
mod packing;
mod state;
mod states;

pub use states::{Added, States};
