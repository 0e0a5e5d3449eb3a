//! What the tests of several crates share: circuits and run texts that are read from a text, and values as letters.
#![tactic(auto)]

mod letters;
mod reading;

pub use letters::{letter_of, push_numbers, push_values, value_of};
pub use reading::{HOLDING, LATCH, MULTIPLEXER, TWO_WIRES, circuit_of, net_of, runs_of};
