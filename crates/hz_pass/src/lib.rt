//! Algorithms A and B on the complete network, and the start that they begin with.
//!
//! | Module | What lives in it |
//! |---|---|
//! | `algorithm_a` | Algorithm A, which finds what runs may change |
//! | `algorithm_b` | Algorithm B, which finds what may stay changed |
//! | `completed_start` | the start that listed values force, or what keeps them from one |
//! | `cuts` | the cuts by their data nodes |
//! | `forcing` | how values are forced from node to node |
//! | `laws` | the law that every listing of the inputs is open, unstable or accepted |
//! | `front` | the frontier of a pass: what a round changed, whose readers the next one evaluates |
//! | `sweep` | the same by one sweep, if each gate stands behind what it reads |
//! | `round`, `rounds` | one round of either, and all of them |
#![tactic(auto)]

mod algorithm_a;
mod algorithm_b;
mod completed_start;
mod cuts;
mod forcing;
mod front;
mod laws;
mod round;
mod rounds;
mod sweep;

pub use algorithm_a::{spread, spread_from, spread_stable};
pub use algorithm_b::settle;
pub use completed_start::{StartFault, complete};
pub use front::Front;
pub use laws::starts_are_decided;
