//! The law that every change has a right finding.
ghost use Rattle.hz_desk.specs.Existence.{FindingsExist};

use crate::room::filled_is_right;
use hz_free::{marks_exist, words_change, words_exist};
use hz_net::passes_end;
use hz_reach::{run_counts, settle_runs_exist, spread_flips, spread_runs_exist};

/// Every circuit has a right finding from every stable start, under every new input and every cap. So the outcome of an analysis
/// is known to be there before it is made.
pub fn findings_exist()
    ensures { FindingsExist }
{
    passes_end();
    spread_runs_exist();
    settle_runs_exist();
    run_counts();
    spread_flips();
    marks_exist();
    words_exist();
    words_change();
    filled_is_right();
}
