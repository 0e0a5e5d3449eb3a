//! Ternary values, gate kinds and circuits: what a netlist stands for.
//!
//! | Module | What lives in it |
//! |---|---|
//! | `tri` | [`Tri`]: the ternary values 0, 1 and X |
//! | `kind` | [`Kind`]: the kinds of gates, their functions and ternary extensions; in `kind/pattern.rt` the canonical pattern |
//! | `circuit` | [`Circuit`]: named inputs, cuts, gates and outputs |
//! | `gate` | the gates of a circuit, as it keeps them |
//! | `name` | [`Name`]: names as the keys of tables; [`same_name`] |
//! | `name_hashing` | [`NameHashing`]: how names are hashed |
//! | `bytes` | four bytes as one number |
//! | `memory` | [`Memory`]: memory ran out |
#![tactic(auto)]

mod bytes;
mod circuit;
mod gate;
mod kind;
mod memory;
mod name;
mod name_hashing;
mod tri;

pub use circuit::{Circuit, MAX_VARIABLES};
pub use kind::{Kind, MAX_PINS};
pub use memory::Memory;
pub use name::{MAX_NAME, Name, same_name};
pub use name_hashing::NameHashing;
pub use tri::Tri;
