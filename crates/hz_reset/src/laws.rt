//! What values from an unknown start say of a circuit.
ghost use Rattle.hz_reset.specs.Values.{OutcomesExist, OutcomesExistAlong, ValuesCover, ValuesExist, ValuesAreOne, BeginsAllUnknown, HeldIsForgotten};

use hz_gmw::ternary_starts_cover;
use hz_net::each_settles;

/// Where a value is 0 or 1, it is right: take any state in which the circuit may come up, that is any whose held nodes
/// have their bits, and for each input after the other any state in which the circuit may be once it has settled. Then the
/// variable has this value in the last one. Nothing is said of a variable that is X.
pub fn values_cover()
    ensures { ValuesCover }
{
    ternary_starts_cover();
    each_settles();
}

/// From every state, under one input after the other, there is a state in which the circuit may be once it has settled. So
/// what [`values_cover`] says of such states is said of some.
pub fn outcomes_exist()
    ensures some { OutcomesExist }
    ensures along { OutcomesExistAlong }
{}

/// The values exist for all inputs, and are determined by what is held and by the inputs.
pub fn values_exist()
    ensures some { ValuesExist }
    ensures one { ValuesAreOne }
{
    each_settles();
}

/// What was held is forgotten with the first input. Nothing is known of a gate's wires then, so its excitation is X, and
/// Algorithm A makes every variable X: Algorithm B begins there.
pub fn held_is_forgotten()
    ensures all { BeginsAllUnknown }
    ensures same { HeldIsForgotten }
{
    each_settles();
}
