//! Laws over the definitions alone: Algorithm B is exact.
ghost use Rattle.hz_reach.specs.Exact.{RunsShowB, SettleRunsExist, BIsExact, OutcomesExist};

use crate::spread_runs_exist;
use hz_gmw::b_covers;
use hz_net::passes_end;

/// If a change has a settle run and a cycle that begins at its end, the value of the result of Algorithm B at a variable
/// is the join of the values that the variable has in the outcome states.
#[tactic(auto, using(crate::proofs::RunsExist::runs_show_b))]
pub fn runs_show_b()
    ensures { RunsShowB }
{
    b_covers();
}

/// Every change has a settle run and a cycle at its end: the runs that `settle_run` and `cycle_run` make.
#[tactic(auto, using(crate::proofs::RunsExist::settle_runs_exist))]
pub fn settle_runs_exist()
    ensures { SettleRunsExist }
{
    passes_end();
    spread_runs_exist();
}

/// Algorithm B is exact: for every circuit, every stable start and every input, the value of its result at a variable is
/// the join of the values that the variable has in the outcome states. There is always an outcome state; if the result
/// is X, one outcome state has 0 there and another has 1.
pub fn b_is_exact()
    ensures exact { BIsExact }
    ensures some { OutcomesExist }
{
    passes_end();
    runs_show_b();
    settle_runs_exist();
}
