//! Netlists in Berkeley's logic interchange format (BLIF): reading them into circuits.
//!
//! Each `.names` becomes its two-level circuit, row by row, since hazards depend on the rows of the
//! cover: an inverter for each pin that a row wants at 0, a gate for each row, and a gate that
//! joins them.
//!
//! | Module | What lives in it |
//! |---|---|
//! | `reading` | [`read`]: the order of work, and the order of the faults |
//! | `lines` | joined lines and their tokens |
//! | `words` | the words of a line |
//! | `line` | what a line is, by its first token, and whether it may stand there |
//! | `names` | the names of a text, which no gate of a cover has |
//! | `draft` | what is kept of the lines: names, covers, outputs |
//! | `cover` | a cover while its rows are read |
//! | `gates` | the gates of a cover |
//! | `notes` | what is kept for the faults, and the count of variables |
//! | `fault` | [`BlifFault`]: why a text is no netlist |
//! | `laws` | the laws that a text without a fault is the text of a circuit, and that stable states keep its covers |
#![tactic(auto)]

mod cover;
mod draft;
mod fault;
mod gates;
mod laws;
mod line;
mod lines;
mod names;
mod notes;
mod reading;
mod words;

pub use fault::BlifFault;
pub use laws::{faultless_text_is_circuit, stable_states_keep_covers};
pub use reading::read;
