//! What all texts of statements on a circuit share: scripts, patterns and run texts are read and printed by it.
//!
//! | Module | What lives in it |
//! |---|---|
//! | `text` | [`Text`]: a grammar and its passes; [`read_text`]: how a text is read, and the passes that are the same for each |
//! | `assignments` | assignments `name = word`, looked up in a circuit |
//! | `bits` | the bits that assignments give to nodes |
//! | `fault` | [`TextFault`]: why a text is refused |
//! | `printing` | assignments, as all texts print them |
//! | `variable` | the words of variables |
#![tactic(auto)]

mod assignments;
mod bits;
mod fault;
mod printing;
mod text;
mod variable;

pub use assignments::{
    Allowed, Assigned, any_unknown, any_without_bit, least_unassigned, read_assignments,
};
pub use bits::{bits_of, read_pairs};
pub use fault::{Mismatch, TextFault};
pub use printing::{write_assignments, write_bits, write_listed};
pub use text::{Text, read_text};
pub use variable::{digit_after, gate_and_pin, write_variable, write_variable_after};
