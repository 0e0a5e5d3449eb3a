//! Two runs of a change that end in different stable states, looked for by a fixed list of attempts.
//!
//! | Module | What lives in it |
//! |---|---|
//! | `split` | [`Split`]: all the room that a search takes, made once; `search` looks for two runs |
//! | `outcome` | [`Outcome`]: what a search comes to |
//! | `found` | the runs that are found |
//! | `trial` | one attempt: from a state, a variable flips in each turn |
//! | `walk` | a state of a network, with its unstable variables in order |
//! | `pick` | which of the unstable variables flips |
//! | `flips` | the state after a step, and after a run |
#![tactic(auto)]

mod flips;
mod found;
mod outcome;
mod pick;
mod split;
mod trial;
mod walk;

pub use outcome::Outcome;
pub use split::Split;
