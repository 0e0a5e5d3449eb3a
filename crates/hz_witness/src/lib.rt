//! One run of a change that serves all variables at once: each node that can change changes in it, nodes that the plan can turn back
//! return, and it ends where what must settle has settled. So it shows from below how often variables change.
//!
//! | Module | What lives in it |
//! |---|---|
//! | `witness` | [`witness_run`]: the run, by the best of three ways |
//! | `attempt` | a plan that is tried: whatever is planned, what is made is a run |
//! | `check` | whether a run that was tried shows what it should |
//! | `counting` | how often a run changes each variable |
//! | `plan` | the plan of a run in which as many gates as possible are turned back |
//! | `moving` | what moves in a change, and what turns a gate |
//! | `components` | [`components_of`]: the cycles of what moves, in an order in which each comes after what it reads |
//! | `existence` | the law that every change has a witness |
//! | `tables` | numbers that are read and set without a fault |
#![tactic(auto)]

mod attempt;
mod check;
mod components;
mod counting;
mod existence;
mod moving;
mod plan;
mod tables;
mod witness;

pub use components::components_of;
pub use existence::witnesses_exist;
pub use witness::witness_run;
