//! Where the next change starts.
ghost use Rattle.std.specs.Prelude.{◌≡◌, ◌<◌, ◌≤◌, length, take, All, MatchOption};
ghost use Rattle.hz_core.specs.Limits.{most_variables};
ghost use Rattle.hz_net.specs.Network.{IsInput, IsState};
ghost use Rattle.hz_lists.specs.Least.{IsLeastOf};
ghost use Rattle.hz_seq.specs.Sequence.{IsFirstUnknown, IsSettledAt, changed_input};
ghost use Rattle.hz_edge_reports.specs.EdgeChanges.{IsNextStart, IsStopper, IsUnstableVariable};
ghost use Rattle.hz_edge_reports.specs.Room.{IsChangeRoom, Leads, change_of};

use crate::room::ChangeRoom;
use hz_core::Tri;
use hz_net::Net;

impl ChangeRoom {
    /// Takes the input after a change from the start.
    pub fn take_input(&mut self, net: &Net, change: &[(u32, bool)])
        requires room { IsChangeRoom net.now self.old }
        requires inputs { All (λ pair. pair.0 < net.now.inputs) change.now }
        ensures input { self.new.input.items
            ≡ changed_input (take net.now.inputs self.old.start.items) change.now }
        ensures start { self.new.start ≡ self.old.start }
        ensures stopped { self.new.stopped ≡ self.old.stopped }
        ensures room { IsChangeRoom net.now self.new }
    {
        net.keeps_shape();
        let inputs = self.input.len();
        self.input.copy_from_slice(&self.start.as_slice()[..inputs]);
        assign(self.input.as_mut_slice(), change);
    }

    /// Goes to where the next change starts, or notes the variable that stops it. All else that was found stays.
    pub fn go_on(&mut self, net: &Net)
        requires room { IsChangeRoom net.now self.old }
        ensures leads { Leads net.now (change_of self.old) self.new }
        ensures input { self.new.input ≡ self.old.input }
        ensures edges { self.new.edges ≡ self.old.edges }
        ensures used { self.new.used ≡ self.old.used }
        ensures idle { self.new.idle ≡ self.old.idle }
        ensures ends { self.new.ends ≡ self.old.ends }
        ensures kept { self.new.kept ≡ self.old.kept }
        ensures room { IsChangeRoom net.now self.new }
    {
        let input = self.input.as_slice();
        let ends = self.ends.as_slice();
        self.stopped = next_start(net, input, ends, self.start.as_mut_slice());
    }
}

// Writes where the next change starts, if each variable comes to this value under the input. If a variable stops it, this returns the
// variable, and the start has no meaning.
fn next_start(net: &Net, input: &[bool], ends: &[Tri], start: &mut [bool]) -> Option<u32>
    requires input { IsInput net.now input.now }
    requires ends { IsState net.now ends.now }
    requires start { IsState net.now start.old }
    ensures { MatchOption result (IsNextStart net.now ends.now start.new)
        (IsStopper net.now input.now ends.now) }
{
    net.keeps_shape();
    if let Some(var) = settle(ends, start) {
        return Some(var);
    }
    first_unstable(net, input, start)
}

// Writes the bits of a change over those of the inputs.
fn assign(input: &mut [bool], change: &[(u32, bool)])
    requires { All (λ pair. pair.0 < length input.old) change.now }
    ensures { input.new ≡ changed_input input.old change.now }
{
    for (place, bit) in change {
        input[*place as usize] = *bit;
    }
}

// Writes the state of these values. If one of them is X there is none: this returns the first such variable, and the state has no meaning.
#[tactic(auto, using(hz_seq::proofs::Settling::one_more, hz_seq::proofs::Settling::first_without, hz_seq::proofs::Settling::settled_at))]
fn settle(values: &[Tri], state: &mut [bool]) -> Option<u32>
    requires values { length values.now ≡ length state.old }
    requires few { length values.now ≤ most_variables }
    ensures { MatchOption result (IsSettledAt values.now state.new) (IsFirstUnknown values.now) }
{
    for (var, value) in values.iter().enumerate() {
        match value.bit() {
            Some(bit) => state[var] = bit,
            None => return Some(var as u32),
        }
    }
    None
}

// The first variable that is unstable.
fn first_unstable(net: &Net, input: &[bool], state: &[bool]) -> Option<u32>
    requires input { IsInput net.now input.now }
    requires state { IsState net.now state.now }
    ensures { IsLeastOf (IsUnstableVariable net.now input.now state.now) result }
{
    for var in 0..net.len() {
        if state[var as usize] != net.excite(input, state, var) {
            return Some(var);
        }
    }
    None
}
