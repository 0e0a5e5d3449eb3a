//! A sequence of changes: each starts where the one before it settled.
//!
//! | Module | What lives in it |
//! |---|---|
//! | `sequence` | [`Sequence`]: makes one change after the other, until one leaves a variable unsettled |
//! | `settled` | where a change settles, by the result of Algorithm B |
#![tactic(auto)]

mod sequence;
mod settled;

pub use sequence::{Sequence, Stopped};
