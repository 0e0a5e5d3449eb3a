//! The text that `analyse` writes: the lines of a circuit with its start, and those of each change; and the summary of one
//! change, which `demo` writes.
//!
//! The lines are given to a [`Writer`](hz_write::Writer). Of the calls here only [`Plate::new`] takes memory.
//!
//! | Module | What lives in it |
//! |---|---|
//! | `head` | the lines that come once: the size of the network, its feedback cycles, and the start |
//! | `change` | the lines of a change: what it assigns, the rounds, the race states and the run text; or where it stops |
//! | `plate` | [`Plate`]: what the lines of changes are made with, and which of them are kept from one change to the next |
//! | `kept` | the lines and words of nodes that are kept, as bytes |
//! | `rows` | the lines of variables: their values, their number of changes and their class |
//! | `summary` | the summary of a change: how many variables have each class, and the size of its runs |
#![tactic(auto, using(hz_write::proofs::Writers::writes_then, hz_write::proofs::Writers::writes_nothing))]

mod change;
mod head;
mod kept;
mod plate;
mod rows;
mod summary;

pub use change::{write_assigned, write_change, write_stopped};
pub use head::{write_feedback, write_head, write_netlist, write_start};
pub use plate::Plate;
pub use rows::shown_count;
pub use summary::write_summary;
