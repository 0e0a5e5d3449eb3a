//! The words of the command line: which job they ask for.
//!
//! `clap` cuts the words into arguments; what the arguments may be is checked here.
//!
//! | Module | What lives in it |
//! |---|---|
//! | `command` | the command as `clap` sees it, and the arguments that `clap` reads |
//! | `job` | [`Job`]: the jobs that are built |
//! | `values` | what the arguments may be |
//! | `reading` | [`read`]: the job of the words |
//! | `fault` | why words name no job |
#![tactic(auto)]

mod command;
mod fault;
mod job;
mod reading;
mod values;

pub use fault::WordsFault;
pub use job::{Job, Task};
pub use reading::read;
