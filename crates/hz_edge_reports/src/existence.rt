//! The law that every change comes to something.
ghost use Rattle.hz_edge_reports.specs.ChangesExist.{ChangesExist};

use hz_bounds::words_are_told;
use hz_edges::edges_exist;
use hz_net::passes_end;
use hz_orders::{inductive_under_orders, ordered_covers, used_by_b};
use hz_reach::{a_is_exact, b_is_exact};
use hz_run_text::printed_runs_are_read;

/// Under any assumptions every change comes to something that is right. So the report of changes is known to be there before it is made.
pub fn changes_exist()
    ensures { ChangesExist }
{
    passes_end();
    a_is_exact();
    b_is_exact();
    edges_exist();
    words_are_told();
    used_by_b();
    inductive_under_orders();
    ordered_covers();
    printed_runs_are_read();
}
