//! The first text of a job: a netlist, in the format that the name of its file tells. It is read, or refused with a line and a status.
//!
//! | Module | What lives in it |
//! |---|---|
//! | `netlist` | reading a netlist, in either format |
//! | `refusal` | refusals of netlists: their lines and their status |
#![tactic(auto)]

mod netlist;
mod refusal;

pub use netlist::{NetlistFault, read_netlist, texts_are_circuits};
pub use refusal::refuse_netlist;
