//! The values that the inputs alone bring about, when nobody knows the state in which a circuit comes up.
//!
//! | Module | What lives in it |
//! |---|---|
//! | `reset` | [`Reset`]: the values after one input after the other, from an unknown start |
//! | `laws` | what these values say of each run from each state that the circuit may come up in |
#![tactic(auto)]

mod laws;
mod reset;

pub use laws::{held_is_forgotten, outcomes_exist, values_cover, values_exist};
pub use reset::Reset;
