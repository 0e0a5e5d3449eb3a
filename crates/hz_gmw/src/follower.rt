//! Following runs.
ghost use Rattle.std.specs.Prelude.{◌≡◌, ◌≤◌, false, length, replicate, All, IfOk, IfSome, IsTrue};
ghost use Rattle.hz_net.specs.Network.{network_of, IsState, IsInput, IsVariable};
ghost use Rattle.hz_lists.specs.Listed.{IsRepeatFree};
ghost use Rattle.hz_gmw.specs.Runs.{state_after};
ghost use Rattle.hz_gmw.specs.Instability.{unstable_count, IsOtherUnstable};
ghost use Rattle.hz_gmw.specs.Follower.{follower_at, follower_after};

use crate::current_state::{CurrentState, kind_at};
use crate::step::make_step;
use hz_core::Memory;
use hz_net::{Net, VarKind};
use std::alloc::Global;
use std::marker::Model;

/// Follows runs that are known to be runs, and knows in each state how many variables are unstable. It checks no step:
/// [`Replay`](crate::Replay) does.
///
/// A step costs the variables that it changes, whatever their fan-out, and the number of unstable ones takes constant time.
/// A look at where a step would lead costs the variables of the step. `begin` costs the whole network. Only `new` takes memory.
#[derive(Debug, Drop)]
pub struct Follower<'n> {
    net: &'n Net,
    current: CurrentState,
}

impl<'n> Model for Follower<'n> {
    ghost use Rattle.hz_gmw.specs.Follower.{FollowerOf};

    ghost Value = { FollowerOf };

    ghost use Rattle.hz_gmw.specs.InsideFollower.{follower_of, HoldsFollower};

    ghost view = { follower_of };

    ghost invariant = { HoldsFollower };
}

impl<'n> Follower<'n> {
    /// It begins where every input and every variable is 0.
    pub fn new(alloc: Global, net: &'n Net) -> Result<Follower<'n>, Memory>
        ensures { IfOk result (λ follower. follower ≡ follower_at net.now
            (replicate net.now.inputs false) (replicate (length (network_of net.now)) false)) }
    {
        let current = CurrentState::new(alloc, net)?;
        Ok(Follower { net, current })
    }

    /// Sets the external input and the state, one bit for each input and each variable.
    pub fn begin(&mut self, input: &[bool], state: &[bool])
        requires input { IsInput self.old.circuit input.now }
        requires state { IsState self.old.circuit state.now }
        ensures { self.new ≡ follower_at self.old.circuit input.now state.now }
    {
        self.current.turn_input(self.net, input);
        self.current.turn_to(self.net, state);
    }

    /// Makes a step: changes the listed variables, each of which is listed once.
    pub fn step(&mut self, flips: &[u32])
        requires inside { All (IsVariable self.old.circuit) flips.now }
        requires once { IsRepeatFree flips.now }
        ensures { self.new ≡ follower_after self.old flips.now }
    {
        self.current.advance(self.net, flips);
    }

    /// Whether two variables are seen to be unstable where a step would lead: two gates among those that the wires of the step go
    /// into. It looks at no other variable, and stays where it is.
    pub fn sees_two_unstable_after(&mut self, flips: &[u32]) -> bool
        requires inside { All (IsVariable self.old.circuit) flips.now }
        requires once { IsRepeatFree flips.now }
        ensures two { IsTrue result → 2
            ≤ unstable_count (network_of self.old.circuit) self.old.input
            (state_after flips.now self.old.state) }
        ensures stays { self.new ≡ self.old }
    {
        make_step(self.current.state.as_mut_slice(), flips);
        let seen = has_two_unstable(
            self.net,
            self.current.input.as_slice(),
            self.current.state.as_slice(),
            flips,
        );
        make_step(self.current.state.as_mut_slice(), flips);
        seen
    }

    /// How many variables are unstable in the current state.
    pub fn unstable_count(&self) -> u32
        ensures { result
            ≡ unstable_count (network_of self.now.circuit) self.now.input self.now.state }
    {
        self.current.unstable
    }
}

// Whether two gates are seen to be unstable among those that the listed wires go into.
fn has_two_unstable(net: &Net, input: &[bool], state: &[bool], list: &[u32]) -> bool
    requires input { IsInput net.now input.now }
    requires state { IsState net.now state.now }
    requires inside { All (IsVariable net.now) list.now }
    ensures { IsTrue result → 2 ≤ unstable_count (network_of net.now) input.now state.now }
{
    let Some(one) = unstable_reader(net, input, state, list, u32::MAX) else {
        return false;
    };
    let Some(_other) = unstable_reader(net, input, state, list, one) else {
        return false;
    };
    true
}

// The first gate that is unstable among those that the listed wires go into, but for one.
fn unstable_reader(net: &Net, input: &[bool], state: &[bool], list: &[u32], but: u32) -> Option<u32>
    requires input { IsInput net.now input.now }
    requires state { IsState net.now state.now }
    requires inside { All (IsVariable net.now) list.now }
    ensures { IfSome result (IsOtherUnstable net.now input.now state.now but) }
{
    for var in list {
        if let VarKind::Wire { gate, .. } = kind_at(net, *var) {
            if gate != but && state[gate as usize] != net.excite(input, state, gate) {
                return Some(gate);
            }
        }
    }
    None
}
