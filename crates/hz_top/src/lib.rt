//! The top call: words, two files and a sink in, a status and a text out.
//!
//! | Module | What lives in it |
//! |---|---|
//! | `order` | the order of work: two files, and then what the task does with the second text |
//! | `reached` | how a call ends, and how far it came |
//! | `running` | the top call |
#![tactic(auto)]

mod order;
mod reached;
mod running;
#[cfg(test)]
mod tests;

pub use hz_refusal::Status;
pub use reached::{Answer, Reached};
pub use running::{answer, run};
