//! Runs that show both values of each variable that Algorithm A, or Algorithm B, makes X.
//!
//! | Module | What lives in it |
//! |---|---|
//! | `change` | [`Change`]: a stable start of a network, and the input that comes |
//! | `spreading` | [`spread_run`]: a run that changes each X of Algorithm A once |
//! | `turn` | [`take_turn`]: a gate's turn, two steps that turn it |
//! | `scratch` | [`Scratch`]: the room to make a run in |
//! | `sorting` | variables by a key and then by number |
//! | `existence` | the law that there are spread runs |
//! | `counts` | laws on the length of runs |
//! | `settling` | the settle run, which ends in a turned state |
//! | `cycling` | the cycle, two passes from a turned state back to it |
//! | `passing` | a pass: each unsettled gate has a turn |
//! | `laws` | that there always are such runs, and that Algorithm B is exact |
#![tactic(auto)]

ghost use Rattle.hz_reach.specs.Existence.{AIsExact};

use hz_gmw::a_covers;

mod change;
mod counts;
mod cycling;
mod existence;
mod laws;
mod passing;
mod scratch;
mod settling;
mod sorting;
mod spreading;
mod turn;

pub use change::Change;
pub use counts::{run_counts, run_ends, spread_flips};
pub use cycling::{cycle_in_order, cycle_run};
pub use existence::spread_runs_exist;
pub use laws::{b_is_exact, runs_show_b, settle_runs_exist};
pub use scratch::Scratch;
pub use settling::{Results, settle_from, settle_run};
pub use spreading::{add_unused, sparing_in_order, spread_in_order, spread_run};
pub use turn::{is_gate, take_turn};

/// Algorithm A is exact: from a start that is stable under its own input, the value of its result at a variable is the
/// join of the values that the variable has in the reachable states. So if the result is X, one reachable state has 0
/// there and another has 1.
pub fn a_is_exact()
    ensures { AIsExact }
{
    a_covers();
}
