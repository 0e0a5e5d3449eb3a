//! The law that every change has a witness.
ghost use Rattle.hz_witness.specs.Existence.{WitnessesExist};

use hz_net::passes_end;
use hz_reach::spread_runs_exist;

/// Every change has a witness: the settle run is one.
#[tactic(auto, using(crate::proofs::WitnessExists::witnesses_exist))]
pub fn witnesses_exist()
    ensures { WitnessesExist }
{
    passes_end();
    spread_runs_exist();
}
