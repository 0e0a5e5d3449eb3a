//! The jobs that analyse changes: the report of a script's changes, a race that is split, and the circuit of a number.
//!
//! | Module | What lives in it |
//! |---|---|
//! | `analysis` | the job `analyse`: the start of a script |
//! | `reporting` | the report of a script's changes |
//! | `splitting` | the job `split`: two runs of a change that end in different stable states |
//! | `generated` | the job `demo`: the circuit of a number |
#![tactic(auto)]

mod analysis;
mod generated;
mod reporting;
mod splitting;

pub use analysis::Analyses;
pub use generated::demo;
pub use splitting::Splits;
