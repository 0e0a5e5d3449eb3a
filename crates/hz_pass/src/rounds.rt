//! The rounds of a pass.
ghost use Rattle.std.specs.Prelude.{◌≡◌, ℕ, ◌+◌, ◌*◌, ◌≤◌, length, slice_index};
ghost use Rattle.hz_net.specs.Network.{network_of, wires_of, AreByVariable};
ghost use Rattle.hz_net.specs.Passes.{AreRounds};
ghost use Rattle.hz_pass.specs.Changes.{differing_count};
ghost use Rattle.hz_pass.specs.Frontier.{AreFirstRounds};
ghost use Rattle.hz_pass.specs.InRound.{states_from, CanBegin};

use crate::front::Front;
use crate::round::{Round, Rule, take_over};
use hz_core::Tri;
use hz_lists::Steps;
use hz_net::Net;
use std::mem::swap;
use std::sync::ledger::Ledger;

/// A pass of either algorithm over a network, under an input.
#[derive(Clone, Copy, Debug)]
pub(crate) struct Pass<'a> {
    pub rule: Rule,
    pub net: &'a Net,
    pub input: &'a [bool],
    /// The first round evaluates the variables below this number, since it leaves all others as they are.
    pub first: u32,
}

impl Pass<'_> {
    /// Makes rounds from a state until one changes nothing, and returns how many, that one included. Notes at each variable
    /// the round that changed it, or 0 if none did. A later round than the first evaluates the readers of what the round
    /// before changed.
    pub(crate) fn make_rounds<L: Ledger>(
        &self,
        state: &mut [Tri],
        noted: &mut [u32],
        work: &mut [Tri],
        front: &mut Front,
        steps: &mut Steps<L>,
    ) -> u32
        requires pass { CanBegin self.now state.old }
        requires noted { AreByVariable self.now.net.now noted.old }
        requires work { AreByVariable self.now.net.now work.old }
        requires front { front.old ≡ length (network_of self.now.net.now) }
        ensures rounds { AreRounds (states_from self.now state.old) result }
        ensures state { state.new ≡ states_from self.now state.old result }
        ensures noted { AreFirstRounds (states_from self.now state.old) state.new noted.new }
        ensures bound { result ≤ length (network_of self.now.net.now) + 1 }
        ensures front { front.new ≡ front.old }
        ensures least_steps { steps.old + differing_count state.old state.new ≤ steps.new }
        ensures most_steps { steps.new
            ≤ steps.old + (self.now.first + 2 * length (wires_of self.now.net.now)) }
    {
        self.net.keeps_shape();
        work.copy_from_slice(state);
        forget(noted);
        let round = Round {
            rule: self.rule,
            net: self.net,
            input: self.input,
            state,
        };
        round.evaluate_first(self.first, &mut front.due, work, &mut front.changed, steps);
        let mut rounds = 1;
        while !front.changed.is_empty() {
            take_over(front.changed.as_slice(), work, rounds, state, noted);
            swap(&mut front.due, &mut front.changed);
            front.changed.clear();
            let round = Round {
                rule: self.rule,
                net: self.net,
                input: self.input,
                state,
            };
            round.evaluate_readers(front.due.as_slice(), work, &mut front.changed, steps);
            rounds += 1;
        }
        front.due.clear();
        rounds
    }
}

// Notes 0 at every variable.
fn forget(noted: &mut [u32])
    ensures long { length noted.new ≡ length noted.old }
    ensures zero { (i : ℕ) → slice_index noted.new i ≡ 0 }
{
    noted.fill(0);
}
