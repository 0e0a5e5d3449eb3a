//! Laws over the definitions alone: what every change has, whatever makes it.
ghost use Rattle.hz_reach.specs.Existence.{SpreadRunExists, SparingRunExists};

/// Every stable start has a spread run under every input, and one in which the wires stay that it does not need: the runs
/// that `spread_run` makes.
#[tactic(auto, using(crate::proofs::Exact::spread_run_exists, crate::proofs::Exact::sparing_run_exists))]
pub fn spread_runs_exist()
    ensures spread { SpreadRunExists }
    ensures sparing { SparingRunExists }
{}
