//! The job `edges`: how often each variable may change in the changes of a script, along all runs or along those that keep assumptions
//! of time.
//!
//! | Module | What lives in it |
//! |---|---|
//! | `job` | [`Edges`]: the job, from the script on |
//! | `reporting` | the report of a script's parts and changes |
//! | `finding` | [`Making`]: what all changes have in common; what is found of a change |
//! | `telling` | the words that are told of a change, and the orders that it uses |
//! | `using` | the orders that assumptions come to |
//! | `settling` | where the next change starts |
//! | `room` | [`ChangeRoom`]: the memory in which a change is made |
//! | `lines` | the lines of one change |
//! | `existence` | the law that every change comes to something |
#![tactic(auto, using(hz_write::proofs::Writers::writes_then, hz_write::proofs::Writers::writes_nothing))]

mod existence;
mod finding;
mod job;
mod lines;
mod reporting;
mod room;
mod settling;
mod telling;
mod using;

pub use existence::changes_exist;
pub use finding::Making;
pub use job::Edges;
pub use room::ChangeRoom;
