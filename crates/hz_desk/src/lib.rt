//! One change analysed.
//!
//! | Module | What lives in it |
//! |---|---|
//! | `desk` | [`Desk`]: all the room that an analysis takes, made once; `change` analyses one change in it |
//! | `finding` | [`Finding`]: what is found of a change, a [`Row`] for each variable and three runs |
//! | `class` | [`Class`]: what a change may do to a variable |
//! | `existence` | the law that every change has a right finding |
//! | `room` | what an analysis works with, and the analysis in it |
//! | `passes` | both passes, and what they leave for the runs |
//! | `runs` | the three runs |
//! | `races` | race states, counted while a follower goes along the runs |
#![tactic(auto)]

mod class;
mod desk;
mod existence;
mod finding;
mod passes;
mod races;
mod rests;
mod room;
mod runs;

pub use class::{Class, one_class};
pub use desk::Desk;
pub use existence::findings_exist;
pub use finding::{Bits, Finding, Rest, Row, Rows};
pub use passes::{Passes, Rounds};
pub use rests::Rests;
