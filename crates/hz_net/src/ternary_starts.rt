//! What holds of both algorithms from a ternary state.
ghost use Rattle.std.specs.Prelude.{◌≡◌, ℕ, Bool, List, map};
ghost use Rattle.hz_core.specs.Ternary.{tri_of};
ghost use Rattle.hz_net.specs.Network.{Driver};
ghost use Rattle.hz_net.specs.Passes.{algorithm_a};
ghost use Rattle.hz_net.specs.TernaryStarts.{algorithm_a_from, EachSettles, SettlesOnce, SettlesWhole, RoundsAreFew};

/// Algorithm A from a start of bits is a case of Algorithm A from a ternary state.
#[tactic(auto, using(crate::proofs::TernaryStarts::bits_are_a_case))]
pub fn bits_are_a_case()
    ensures { (net : List Driver) (input start : List Bool) (round : ℕ) →
        algorithm_a net input start round ≡ algorithm_a_from net input (map tri_of start) round }
{}

/// Each ternary state settles under each input: Algorithm A comes to rest, after at most one round more than there are
/// variables, and then Algorithm B does. What it settles to is one state, with a value for each variable.
#[tactic(auto, using(crate::proofs::TernaryStarts::rounds_are_few))]
pub fn each_settles()
    ensures some { EachSettles }
    ensures one { SettlesOnce }
    ensures whole { SettlesWhole }
    ensures few { RoundsAreFew }
{}
