//! How often each variable may change in a change, behind feedback too.
//!
//! | Module | What lives in it |
//! |---|---|
//! | `finding` | [`EdgeRoom`]: what is found of a change beside the results of both passes, and the memory that this takes |
//! | `existence` | the law that there are edges of every change |
#![tactic(auto)]

mod existence;
mod finding;

pub use existence::edges_exist;
pub use finding::EdgeRoom;
