//! Runs of the general multiple-winner model.
//!
//! | Module | What lives in it |
//! |---|---|
//! | `run` | [`Run`]: the steps of a run, with room that is taken once |
//! | `step` | what a step does to a state |
//! | `replay` | [`Replay`]: checks steps and cycles |
//! | `follower` | [`Follower`]: follows runs, and knows how many variables are unstable |
//! | `replay_fault` | why a step or a cycle is refused |
//! | `current_state` | the current state of a replayer or a follower, with what is counted of it |
//! | `watch` | which variables may have waited since the mark |
//! | `variable_set` | sets of variables |
//! | `least` | the least listed variable with a property |
//! | `ones` | the value of a gate by how many of its pins are 1 |
#![tactic(auto)]

ghost use Rattle.hz_gmw.specs.Covers.{ACovers, BCovers, ACoversFrom, BCoversFrom, SettledCovers};

mod current_state;
mod follower;
mod least;
mod ones;
mod replay;
mod replay_fault;
mod run;
mod step;
mod variable_set;
mod watch;

pub use follower::Follower;
pub use replay::Replay;
pub use replay_fault::{CycleFault, StepFault};
pub use run::Run;
pub use step::make_step;

/// Algorithm A covers: if its result is 0 or 1 at a variable, every reachable state has this value there.
#[tactic(auto, using(crate::proofs::CoverA::covers))]
pub fn a_covers()
    ensures { ACovers }
{}

/// Algorithm B covers: if a state of its sequence from the result of Algorithm A is 0 or 1 at a variable, every
/// outcome state has this value there.
#[tactic(auto, using(crate::proofs::CoverB::covers_outcomes))]
pub fn b_covers()
    ensures { BCovers }
{}

/// Both algorithms cover from a ternary state, as it stands for each binary state that refines it: if Algorithm A's result is
/// 0 or 1 at a variable, every state that is reachable from such a start has this value there. If a state of Algorithm
/// B's sequence is, every outcome has this value, and so for what the ternary state settles to.
#[tactic(auto, using(crate::proofs::CoverFrom::covers_reached, crate::proofs::CoverFrom::covers_outcomes_from, crate::proofs::CoverFrom::covers_settled,))]
pub fn ternary_starts_cover()
    ensures a { ACoversFrom }
    ensures b { BCoversFrom }
    ensures settled { SettledCovers }
{}
