//! Netlists in the .bench format: reading them into circuits, and printing circuits.
//!
//! | Module | What lives in it |
//! |---|---|
//! | `reading` | [`read`]: the order of work, and the order of the faults |
//! | `parse` | the one pass over the lines: what is kept of each statement |
//! | `statement` | the statement of a line |
//! | `forms` | what a statement is, without its names |
//! | `entry` | the statement of a line, as it is read |
//! | `notes` | what is kept for the faults of a single line, and the counts |
//! | `printing` | [`print`]: the text of a circuit |
//! | `fault` | [`BenchFault`]: why a text is no netlist |
//! | `laws` | the law that a text without a fault is the text of a circuit |
#![tactic(auto)]

mod entry;
mod fault;
mod forms;
mod laws;
mod notes;
mod parse;
mod printing;
mod reading;
mod statement;

pub use fault::BenchFault;
pub use laws::faultless_text_is_circuit;
pub use printing::print;
pub use reading::read;
