//! A state of a network under an input, with its unstable variables in order.
ghost use Rattle.std.specs.Prelude.{◌≡◌, ◌∷◌, [], false, length, replicate, slice_set, All, IfOk};
ghost use Rattle.hz_net.specs.Network.{network_of, IsState, AreByVariable, IsInput, IsVariable};
ghost use Rattle.hz_gmw.specs.Instability.{is_unstable, unstable_variables};
ghost use Rattle.hz_gmw.specs.Follower.{follower_at, follower_after};
ghost use Rattle.hz_split.specs.Attempts.{picked};
ghost use Rattle.hz_split.specs.Walks.{with_looks};

use crate::pick::Pick;
use hz_core::Memory;
use hz_lists::NumberSet;
use hz_net::Net;
use std::alloc::Global;
use std::marker::Model;

/// A state of a network under an input. A flip costs the variables that read the one that flips, and the least or the greatest
/// unstable variable takes constant time. `begin` costs the whole network. Only `new` takes memory.
#[derive(Debug, Drop)]
pub(crate) struct Walk<'n> {
    net: &'n Net,
    input: Vec<bool>,
    state: Vec<bool>,
    unstable: NumberSet,
}

impl<'n> Model for Walk<'n> {
    ghost use Rattle.hz_gmw.specs.Follower.{FollowerOf};

    ghost Value = { FollowerOf };

    ghost use Rattle.hz_split.specs.InsideWalk.{walk_of, HoldsWalk};

    ghost view = { walk_of };

    ghost invariant = { HoldsWalk };
}

impl<'n> Walk<'n> {
    /// It begins where every input and every variable is 0.
    pub(crate) fn new(alloc: Global, net: &'n Net) -> Result<Walk<'n>, Memory>
        ensures { IfOk result
            (λ walk. walk
            ≡ follower_at net.now (replicate net.now.inputs false)
            (replicate (length (network_of net.now)) false)) }
    {
        let input = vec![in alloc; false; net.circuit().inputs() as usize]?;
        let state = vec![in alloc; false; net.len() as usize]?;
        let mut unstable = NumberSet::new(alloc, net.len())?;
        look_at_all(net, input.as_slice(), state.as_slice(), &mut unstable);
        Ok(Walk {
            net,
            input,
            state,
            unstable,
        })
    }

    /// Goes to a state under an input.
    pub(crate) fn begin(&mut self, input: &[bool], state: &[bool])
        requires input { IsInput self.old.circuit input.now }
        requires state { IsState self.old.circuit state.now }
        ensures { self.new ≡ follower_at self.old.circuit input.now state.now }
    {
        self.input.as_mut_slice().copy_from_slice(input);
        self.state.as_mut_slice().copy_from_slice(state);
        look_at_all(self.net, input, state, &mut self.unstable);
    }

    /// Changes one variable. Only it and the variables that read it may become stable or unstable.
    pub(crate) fn flip(&mut self, var: u32)
        requires { IsVariable self.old.circuit var }
        ensures { self.new ≡ follower_after self.old (var ∷ []) }
    {
        self.net.keeps_shape();
        self.state[var as usize] = !self.state[var as usize];
        look_at(
            self.net,
            self.input.as_slice(),
            self.state.as_slice(),
            var,
            &mut self.unstable,
        );
        look_at_each(
            self.net,
            self.input.as_slice(),
            self.state.as_slice(),
            self.net.readers(var),
            &mut self.unstable,
        );
    }

    /// The unstable variable that is picked.
    pub(crate) fn picked(&self, pick: Pick) -> Option<u32>
        ensures { result
            ≡ picked pick
            (unstable_variables (network_of self.now.circuit) self.now.input self.now.state) }
    {
        match pick {
            Pick::Least => self.unstable.least(),
            Pick::Greatest => self.unstable.greatest(),
        }
    }

    /// The state.
    pub(crate) fn state(&self) -> &[bool]
        ensures { result.now ≡ self.now.state }
    {
        self.state.as_slice()
    }
}

// Looks whether a variable is unstable.
fn look_at(net: &Net, input: &[bool], state: &[bool], var: u32, unstable: &mut NumberSet)
    requires input { IsInput net.now input.now }
    requires state { IsState net.now state.now }
    requires var { IsVariable net.now var }
    requires set { AreByVariable net.now unstable.old }
    ensures { unstable.new
        ≡ slice_set unstable.old var (is_unstable (network_of net.now) input.now state.now var) }
{
    if net.excite(input, state, var) != state[var as usize] {
        unstable.insert(var);
    } else {
        unstable.remove(var);
    }
}

// Looks at listed variables.
fn look_at_each(net: &Net, input: &[bool], state: &[bool], list: &[u32], unstable: &mut NumberSet)
    requires input { IsInput net.now input.now }
    requires state { IsState net.now state.now }
    requires list { All (IsVariable net.now) list.now }
    requires set { AreByVariable net.now unstable.old }
    ensures { unstable.new
        ≡ with_looks (network_of net.now) input.now state.now unstable.old list.now }
{
    for var in list {
        look_at(net, input, state, *var, unstable);
    }
}

// Looks at all variables.
fn look_at_all(net: &Net, input: &[bool], state: &[bool], unstable: &mut NumberSet)
    requires input { IsInput net.now input.now }
    requires state { IsState net.now state.now }
    requires set { AreByVariable net.now unstable.old }
    ensures { unstable.new ≡ unstable_variables (network_of net.now) input.now state.now }
{
    for var in 0..net.len() {
        look_at(net, input, state, var, unstable);
    }
}
