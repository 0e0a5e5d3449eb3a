//! The jobs on run texts: they are replayed, converted, and written as waveforms.
//!
//! | Module | What lives in it |
//! |---|---|
//! | `replaying` | the job `replay`: the runs of a run text, step by step |
//! | `verdict` | the line that `replay` writes |
//! | `converting` | the job `convert`: a run text, written in format 2 |
//! | `dumping` | the job `vcd`: the last run of a run text as a value change dump |
//! | `reading_back` | a law on the runs that are printed: they replay |
#![tactic(auto)]

mod converting;
mod dumping;
mod reading_back;
mod replaying;
mod verdict;

pub use converting::Converts;
pub use dumping::Dumps;
pub use reading_back::accepted_runs_replay;
pub use replaying::{Replays, RunRefusal};
