//! How a call ends, and the second text of a job: it is read, or refused with a line and a status.
//!
//! | Module | What lives in it |
//! |---|---|
//! | `status` | how a call of the program ends |
//! | `second` | the second text: what every job does with a script, with a run text, and with patterns |
//! | `refusal` | refusals: their lines and their statuses |
#![tactic(auto)]

mod refusal;
mod second;
mod status;

pub use refusal::{put_at, put_words, refuse_load, refuse_start, refuse_text};
pub use second::{OnPatterns, OnRuns, OnScript, on_patterns, on_runs, on_script};
pub use status::{Ending, Status, status_after, status_flushed};
