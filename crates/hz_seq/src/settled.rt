//! Where a change settles, by the result of Algorithm B. Without `write_settled`, 1,000 changes of 2,000 variables take 6 % more
//! instructions.
ghost use Rattle.std.specs.Prelude.{◌≡◌, ◌≤◌, true, length, MatchOption};
ghost use Rattle.hz_seq.specs.Sequence.{IsFirstUnknown, IsSettledAt};
ghost use Rattle.hz_core.specs.Limits.{most_variables};

use hz_core::Tri;

/// Makes the state in which a change settles, if the change leaves the variables at these values. If one of them is unsettled there is none:
/// this returns the first such variable, and the state has no meaning. Nearly every change leaves none unsettled, and then one pass without a
/// branch is enough.
pub(crate) fn settle(values: &[Tri], state: &mut [bool]) -> Option<u32>
    requires values { length values.now ≡ length state.old }
    requires few { length values.now ≤ most_variables }
    ensures { MatchOption result (IsSettledAt values.now state.new) (IsFirstUnknown values.now) }
{
    if write_settled(values, state) {
        return None;
    }
    settle_each(values, state)
}

// Writes whether each value is 1. Returns whether none is X: else the state has no meaning.
fn write_settled(values: &[Tri], state: &mut [bool]) -> bool
    requires { length values.now ≡ length state.old }
    ensures { result ≡ true → IsSettledAt values.now state.new }
{
    let mut known = true;
    for (var, value) in values.iter().enumerate() {
        state[var] = *value == Tri::One;
        known &= *value != Tri::Unknown;
    }
    known
}

// The same, value by value until one is X.
#[tactic(auto, using(crate::proofs::Settling::one_more, crate::proofs::Settling::first_without))]
fn settle_each(values: &[Tri], state: &mut [bool]) -> Option<u32>
    requires values { length values.now ≡ length state.old }
    requires few { length values.now ≤ most_variables }
    ensures { MatchOption result (IsSettledAt values.now state.new) (IsFirstUnknown values.now) }
{
    for (var, value) in values.iter().enumerate() {
        match value.bit() {
            Some(bit) => state[var] = bit,
            None => return Some(var as u32),
        }
    }
    None
}
