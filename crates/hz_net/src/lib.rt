//! The complete network of a circuit: a variable for each input, each gate and each wire.
//!
//! | Module | What lives in it |
//! |---|---|
//! | `net` | the network: what each variable is, what excites it, what reads it |
//! | `variable` | what a variable is |
//! | `laws` | what holds of all networks, and that both algorithms come to rest on them |
//! | `ternary_starts` | what holds of both algorithms where the start is known in part |
//! | `entry`, `fan_out` | how the network keeps its variables and the wires from each node |
#![tactic(auto)]

mod entry;
mod fan_out;
mod laws;
mod net;
mod ternary_starts;
mod variable;

pub use laws::{network_is_wired, passes_end, values_read_decide};
pub use net::Net;
pub use ternary_starts::{bits_are_a_case, each_settles};
pub use variable::VarKind;
