//! The law that there are edges of every change.
ghost use Rattle.hz_edges.specs.EdgesExist.{EdgesExist};

use hz_bounds::words_are_told;
use hz_witness::witnesses_exist;

/// Beside the results of both algorithms there are right edges, for every change. So the report of changes is known to be there before it
/// is made.
pub fn edges_exist()
    ensures { EdgesExist }
{
    words_are_told();
    witnesses_exist();
}
