//! The job `explore`: all stable states that bursts lead to from the start of a script, and what each burst does in each of them, under the
//! script's assumptions of time.
//!
//! | Module | What lives in it |
//! |---|---|
//! | `job` | [`Explores`]: the job, from the start of a script on |
//! | `exploring` | the report of an exploration |
//! | `bursts` | the bursts of a script, and to which states they apply |
//! | `room` | the memory of an exploration: the states that were found, and the change that is made |
//! | `counting` | how many nodes are of each class, and how many changes are of each kind |
//! | `lines` | the lines of an exploration |
#![tactic(auto, using(hz_write::proofs::Writers::writes_then, hz_write::proofs::Writers::writes_nothing))]

mod bursts;
mod counting;
mod exploring;
mod job;
mod lines;
mod room;

pub use job::Explores;
