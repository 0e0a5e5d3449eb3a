//! The canonical pattern of a gate: which of its free pins change to give it a wanted value.
//!
//! The idea. If the gate has the value already, nothing changes. Otherwise each kind has, for each value, one of two
//! properties. Either a single list of bits gives the value, the one with the same bit at every pin (AND is 1 only on ones),
//! and that list is the pattern. Or any one pin, once changed, gives the gate the value (AND leaves 1 by any pin), and the
//! first free pin is changed. So no search is needed. `lone_bit` says which of the two it is.
//!
//! What must stay true: `HasBitOrSwitch`, for every kind and both values. The caller knows that some list on free pins will do.
//!
//! What breaks if you add a kind: a majority of three pins has neither property, since at 000 no one pin makes it 1. `choose`
//! would have to search, and the lemma `reached` fails first.
ghost use Rattle.std.specs.Prelude.{◌≡◌, Bool, false, not, List, IsTrue, MatchOption, length, slice_set, slice_index_or};
ghost use Rattle.std.specs.List.{position};
ghost use Rattle.hz_core.specs.Gate.{takes};
ghost use Rattle.hz_core.specs.Pattern.{IsCandidate, IsPattern};
ghost use Rattle.hz_core.specs.BitOrSwitch.{HasBitOrSwitch};

use super::Kind;

impl Kind {
    /// Writes the canonical pattern into `to`: of the lists of bits that agree with `now` at every
    /// pin that is not free and give the gate the value `want`, the one with the fewest pins
    /// changed, and among these the one whose list of changed pins is least in lexicographic order.
    /// Pins are counted from 0. What stood in `to` is not read.
    pub fn choose(self, now: &[bool], free: &[bool], want: bool, to: &mut [bool])
        requires takes { IsTrue (takes self (length now.now)) }
        requires free_length { length free.now ≡ length now.now }
        requires to_length { length to.old ≡ length now.now }
        requires possible { (list : List Bool) × IsCandidate self now.now free.now want list }
        ensures { IsPattern self now.now free.now want to.new }
    {
        if self.eval(now) == want {
            to.copy_from_slice(now);
            return;
        }
        match self.lone_bit(want) {
            Some(bit) => to.fill(bit),
            None => {
                to.copy_from_slice(now);
                change_first(free, to);
            }
        }
    }

    // The bit that all pins have wherever the gate has this value. If there is none, each pin
    // alone turns the other value into this one.
    #[tactic(auto, using(crate::proofs::BitOrSwitchLemmas::reached))]
    fn lone_bit(self, value: bool) -> Option<bool>
        ensures { HasBitOrSwitch self value result }
    {
        match self {
            Kind::And => value.then_some(true),
            Kind::Nand => (!value).then_some(true),
            Kind::Or => (!value).then_some(false),
            Kind::Nor => value.then_some(false),
            Kind::Xor | Kind::Xnor | Kind::Not | Kind::Buff => None,
        }
    }
}

// Changes the first pin that is free.
fn change_first(free: &[bool], to: &mut [bool])
    requires { length free.now ≡ length to.old }
    ensures { MatchOption
        (position (λ free. free) free.now)
        (to.new ≡ to.old)
        (λ pin. to.new ≡ slice_set to.old pin (not (slice_index_or to.old pin false))) }
{
    if let Some(pin) = first(free) {
        to[pin] = !to[pin];
    }
}

fn first(free: &[bool]) -> Option<usize>
    ensures { result ≡ position (λ free. free) free.now }
{
    free.iter().position(|free| *free)
}
