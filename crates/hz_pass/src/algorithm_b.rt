//! Algorithm B.
ghost use Rattle.std.specs.Prelude.{◌≡◌, ◌+◌, ◌*◌, ◌≤◌, length};
ghost use Rattle.hz_core.specs.Ternary.{AllBelow};
ghost use Rattle.hz_net.specs.Network.{network_of, wires_of, IsState, AreByVariable, IsInput};
ghost use Rattle.hz_net.specs.Passes.{excitations, algorithm_b, AreRounds, AreSettlingRounds};
ghost use Rattle.hz_pass.specs.Changes.{differing_count};

use crate::front::Front;
use crate::round::Rule;
use crate::rounds::Pass;
use hz_core::Tri;
use hz_lists::Steps;
use hz_net::Net;
use std::sync::ledger::Ledger;

/// Algorithm B of Brzozowski and Seger (*Asynchronous Circuits*, Springer 1995): each round puts the ternary excitations in
/// place of the state, until a round changes nothing. From the result of Algorithm A it finds the values that may persist.
/// The excitations of the state that it begins with lie below that state.
///
/// Turns `state` into the result, writes into `when` the first round in which a variable that was X is 0 or 1, and 0
/// for every other variable, and returns the rounds, the last one included, which changes nothing. The first round
/// looks at every variable, a later one only at the readers of what the round before changed: all rounds together evaluate at
/// most as many variables as there are, and two for each wire. `work` is room for a round. All slices but `input` have one
/// element for each variable. It takes no memory.
pub fn settle<L: Ledger>(
    net: &Net,
    input: &[bool],
    state: &mut [Tri],
    when: &mut [u32],
    work: &mut [Tri],
    front: &mut Front,
    steps: &mut Steps<L>,
) -> u32
    requires input { IsInput net.now input.now }
    requires state { IsState net.now state.old }
    requires when { AreByVariable net.now when.old }
    requires work { IsState net.now work.old }
    requires below { AllBelow (excitations (network_of net.now) input.now state.old) state.old }
    requires front { front.old ≡ length (network_of net.now) }
    ensures rounds { AreRounds (algorithm_b (network_of net.now) input.now state.old) result }
    ensures state { state.new ≡ algorithm_b (network_of net.now) input.now state.old result }
    ensures when { AreSettlingRounds
        (algorithm_b (network_of net.now) input.now state.old) state.old state.new when.new }
    ensures bound { result ≤ length (network_of net.now) + 1 }
    ensures front { front.new ≡ front.old }
    ensures least_steps { steps.old + differing_count state.old state.new ≤ steps.new }
    ensures most_steps { steps.new
        ≤ steps.old + (length (network_of net.now) + 2 * length (wires_of net.now)) }
{
    let variables = net.len();
    let pass = Pass {
        rule: Rule::Replace,
        net,
        input,
        first: variables,
    };
    pass.make_rounds(state, when, work, front, steps)
}
