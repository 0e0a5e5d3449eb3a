//! Algorithm A.
ghost use Rattle.std.specs.Prelude.{◌≡◌, ◌+◌, ◌*◌, ◌≤◌, length, map};
ghost use Rattle.hz_core.specs.Ternary.{tri_of, AllBelow};
ghost use Rattle.hz_net.specs.Network.{network_of, wires_of, IsState, AreByVariable, IsInput};
ghost use Rattle.hz_net.specs.Passes.{excitations, algorithm_a, AreRounds, AreRanks};
ghost use Rattle.hz_net.specs.Starts.{IsStableStart};
ghost use Rattle.hz_net.specs.TernaryStarts.{algorithm_a_from};
ghost use Rattle.hz_pass.specs.Changes.{differing_count};

use crate::front::Front;
use crate::round::Rule;
use crate::rounds::Pass;
use hz_core::Tri;
use hz_lists::Steps;
use hz_net::Net;
use std::sync::ledger::Ledger;

/// Algorithm A of Brzozowski and Seger (*Asynchronous Circuits*, Springer 1995): from the start, under the new input, each round
/// joins every variable with its ternary excitation, until a round changes nothing.
///
/// Writes the result into `out` and the rank of each variable into `rank`, and returns the rounds, the last one
/// included, which changes nothing. The first round evaluates every variable, a later one only the readers of what the
/// round before changed: all rounds together evaluate at most as many variables as there are, and two for each wire.
/// `work` is room for a round. All slices but `input` have one element for each variable. It takes no memory.
pub fn spread<L: Ledger>(
    net: &Net,
    input: &[bool],
    start: &[bool],
    out: &mut [Tri],
    rank: &mut [u32],
    work: &mut [Tri],
    front: &mut Front,
    steps: &mut Steps<L>,
) -> u32
    requires input { IsInput net.now input.now }
    requires start { IsState net.now start.now }
    requires out { IsState net.now out.old }
    requires rank { AreByVariable net.now rank.old }
    requires work { IsState net.now work.old }
    requires front { front.old ≡ length (network_of net.now) }
    ensures rounds { AreRounds (algorithm_a (network_of net.now) input.now start.now) result }
    ensures out { out.new ≡ algorithm_a (network_of net.now) input.now start.now result }
    ensures rank { AreRanks (algorithm_a (network_of net.now) input.now start.now)
        out.new rank.new }
    ensures bound { result ≤ length (network_of net.now) + 1 }
    ensures front { front.new ≡ front.old }
    ensures least_steps { steps.old + differing_count (map tri_of start.now) out.new ≤ steps.new }
    ensures most_steps { steps.new
        ≤ steps.old + (length (network_of net.now) + 2 * length (wires_of net.now)) }
{
    let variables = net.len();
    write_bits(start, out);
    let pass = Pass {
        rule: Rule::Join,
        net,
        input,
        first: variables,
    };
    pass.make_rounds(out, rank, work, front, steps)
}

/// Algorithm A from a start that is stable under its own inputs. Such a start lets the first round evaluate the inputs only.
/// The rest is as in `spread`.
pub fn spread_stable<L: Ledger>(
    net: &Net,
    input: &[bool],
    start: &[bool],
    out: &mut [Tri],
    rank: &mut [u32],
    work: &mut [Tri],
    front: &mut Front,
    steps: &mut Steps<L>,
) -> u32
    requires start { IsStableStart net.now start.now }
    requires input { IsInput net.now input.now }
    requires out { IsState net.now out.old }
    requires rank { AreByVariable net.now rank.old }
    requires work { IsState net.now work.old }
    requires front { front.old ≡ length (network_of net.now) }
    ensures rounds { AreRounds (algorithm_a (network_of net.now) input.now start.now) result }
    ensures out { out.new ≡ algorithm_a (network_of net.now) input.now start.now result }
    ensures rank { AreRanks (algorithm_a (network_of net.now) input.now start.now)
        out.new rank.new }
    ensures bound { result ≤ length (network_of net.now) + 1 }
    ensures front { front.new ≡ front.old }
    ensures least_steps { steps.old + differing_count (map tri_of start.now) out.new ≤ steps.new }
    ensures most_steps { steps.new ≤ steps.old + (net.now.inputs + 2 * length (wires_of net.now)) }
{
    net.keeps_shape();
    let inputs = net.circuit().inputs();
    write_bits(start, out);
    let pass = Pass {
        rule: Rule::Join,
        net,
        input,
        first: inputs,
    };
    pass.make_rounds(out, rank, work, front, steps)
}

/// Algorithm A from any ternary state, as from an unknown start: `state` has it, and gets the result, as in `settle`. No
/// value is evaluated yet, so the first round evaluates every variable, as in `spread`. Algorithm B can follow: the
/// excitations of the result lie below it.
pub fn spread_from<L: Ledger>(
    net: &Net,
    input: &[bool],
    state: &mut [Tri],
    rank: &mut [u32],
    work: &mut [Tri],
    front: &mut Front,
    steps: &mut Steps<L>,
) -> u32
    requires input { IsInput net.now input.now }
    requires state { IsState net.now state.old }
    requires rank { AreByVariable net.now rank.old }
    requires work { IsState net.now work.old }
    requires front { front.old ≡ length (network_of net.now) }
    ensures rounds { AreRounds (algorithm_a_from (network_of net.now) input.now state.old) result }
    ensures state { state.new ≡ algorithm_a_from (network_of net.now) input.now state.old result }
    ensures rank { AreRanks (algorithm_a_from (network_of net.now) input.now state.old)
        state.new rank.new }
    ensures below { AllBelow (excitations (network_of net.now) input.now state.new) state.new }
    ensures bound { result ≤ length (network_of net.now) + 1 }
    ensures front { front.new ≡ front.old }
    ensures least_steps { steps.old + differing_count state.old state.new ≤ steps.new }
    ensures most_steps { steps.new
        ≤ steps.old + (length (network_of net.now) + 2 * length (wires_of net.now)) }
{
    let count = net.len();
    let pass = Pass {
        rule: Rule::Join,
        net,
        input,
        first: count,
    };
    pass.make_rounds(state, rank, work, front, steps)
}

// Writes the values of known bits.
fn write_bits(bits: &[bool], values: &mut [Tri])
    requires { length values.old ≡ length bits.now }
    ensures { values.new ≡ map tri_of bits.now }
{
    for i in 0..bits.len() {
        values[i] = Tri::of(bits[i]);
    }
}
