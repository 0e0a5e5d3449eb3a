//! Scripts with assumptions of time: orders of two wires, wires without delay, and several starts with their changes.
//!
//! | Module | What lives in it |
//! |---|---|
//! | `script` | [`TimedScript`]: assumptions, and a script for each start |
//! | `read` | [`read_timed`]: the order of work |
//! | `statement` | the statements, looked up in a network |
//! | `keyword` | the keywords with which they begin |
//! | `variable` | a variable, as it is written |
//! | `order` | the order of the statements |
//! | `rules` | the passes over the statements, one for each fault of all texts |
//! | `assumptions` | the passes for the faults of assumptions |
//! | `build` | the script of statements without a fault |
//! | `fault` | [`TimedFault`]: why a text is refused |
//! | `timed` | [`on_timed`]: what every job does with such a text |
#![tactic(auto)]

mod assumptions;
mod build;
mod fault;
mod keyword;
mod order;
mod read;
mod rules;
mod script;
mod statement;
mod timed;
mod variable;

pub use fault::TimedFault;
pub use read::read_timed;
pub use script::{Assumption, TimedScript};
pub use timed::{OnTimed, on_timed};
