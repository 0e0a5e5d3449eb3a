//! The values that the command line names: the options of every job, and the numbers that have a generated circuit.
//!
//! | Module | What lives in it |
//! |---|---|
//! | `options` | [`Options`]: what stands beside the job; the greatest numbers |
//! | `show` | [`Show`]: which variables have a line |
#![tactic(auto)]

mod options;
mod show;

pub use options::{MAX_CAP, MAX_DEMO_NUMBER, Options};
pub use show::Show;
