//! One attempt: from a state, one unstable variable flips in each turn.
ghost use Rattle.std.specs.Prelude.{◌≡◌, ◌*◌, length, IfOk};
ghost use Rattle.hz_net.specs.Network.{network_of, IsState, IsInput};
ghost use Rattle.hz_gmw.specs.Runs.{end_of};
ghost use Rattle.hz_split.specs.Attempts.{turns_from, flips_alone, is_settled};

use crate::pick::Pick;
use crate::walk::Walk;
use hz_core::Memory;
use hz_net::Net;
use std::alloc::Global;
use std::marker::Model;

/// Room for an attempt, and the last one: the variables that flipped, one in each turn, and the state after them.
#[derive(Debug, Drop)]
pub(crate) struct Trial<'n> {
    net: &'n Net,
    walk: Walk<'n>,
    turns: Vec<u32>,
}

impl<'n> Model for Trial<'n> {
    ghost use Rattle.hz_split.specs.Trials.{TrialOf};

    ghost Value = { TrialOf };

    ghost use Rattle.hz_split.specs.InsideTrial.{trial_of, HoldsTrial};

    ghost view = { trial_of };

    ghost invariant = { HoldsTrial };
}

impl<'n> Trial<'n> {
    /// Room for attempts on a network.
    pub(crate) fn new(alloc: Global, net: &'n Net) -> Result<Trial<'n>, Memory>
        ensures { IfOk result (λ trial. trial.circuit ≡ net.now) }
    {
        Ok(Trial {
            net,
            walk: Walk::new(alloc, net)?,
            turns: Vec::with_capacity(alloc, 2 * net.len() as usize)?,
        })
    }

    /// Makes an attempt from a state. Returns whether it stops at a stable state.
    pub(crate) fn make(&mut self, input: &[bool], state: &[bool], pick: Pick) -> bool
        requires input { IsInput self.old.circuit input.now }
        requires state { IsState self.old.circuit state.now }
        ensures circuit { self.new.circuit ≡ self.old.circuit }
        ensures turns { self.new.turns
            ≡ turns_from (network_of self.old.circuit) input.now pick
            (2 * length (network_of self.old.circuit)) state.now }
        ensures ends { self.new.state ≡ end_of state.now (flips_alone self.new.turns) }
        ensures settled { result
            ≡ is_settled (network_of self.old.circuit) input.now self.new.state }
    {
        let most = 2 * self.net.len();
        self.walk.begin(input, state);
        self.turns.clear();
        for _turn in 0..most {
            let Some(var) = self.walk.picked(pick) else {
                return true;
            };
            self.walk.flip(var);
            self.turns.push_reserved(var);
        }
        self.walk.picked(pick).is_none()
    }

    /// The variables that flipped, one in each turn.
    pub(crate) fn turns(&self) -> &[u32]
        ensures { result.now ≡ self.now.turns }
    {
        self.turns.as_slice()
    }

    /// The state after them.
    pub(crate) fn state(&self) -> &[bool]
        ensures { result.now ≡ self.now.state }
    {
        self.walk.state()
    }
}
