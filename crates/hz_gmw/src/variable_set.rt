//! Sets of variables.
ghost use Rattle.std.specs.Prelude.{◌≡◌, ◌<◌, Bool, true, false, length, replicate, slice_set, IfOk, All};
ghost use Rattle.hz_net.specs.Network.{bit_at};
ghost use Rattle.hz_gmw.specs.VariableSets.{AreMembers};
ghost use Rattle.hz_gmw.specs.CurrentState.{with_marks};

use hz_core::Memory;
use std::alloc::Global;
use std::marker::Model;

/// A set of the variables below a number: a mark for each variable, and the marked ones in a list. A test and an insertion
/// take constant time, and clearing takes the time of the members.
#[derive(Debug, Drop)]
pub(crate) struct VariableSet {
    marks: Vec<bool>,
    members: Vec<u32>,
}

impl Model for VariableSet {
    ghost use Rattle.std.specs.Prelude.{List, Bool};

    ghost Value = { List Bool };

    ghost use Rattle.hz_gmw.specs.VariableSets.{HoldsSet};

    ghost view = { λ set. set.marks.items };

    ghost invariant = { HoldsSet };
}

impl VariableSet {
    /// No variable, with room for that many.
    pub(crate) fn new(alloc: Global, count: u32) -> Result<VariableSet, Memory>
        ensures { IfOk result (λ set. set ≡ replicate count false) }
    {
        let marks = vec![in alloc; false; count as usize]?;
        let members = Vec::with_capacity(alloc, count as usize)?;
        Ok(VariableSet { marks, members })
    }

    pub(crate) fn contains(&self, var: u32) -> bool
        requires { var < length self.now }
        ensures { result ≡ bit_at self.now var }
    {
        self.marks[var as usize]
    }

    /// The variables in the set, in no order.
    pub(crate) fn members(&self) -> &[u32]
        ensures { AreMembers self.now result.now }
    {
        self.members.as_slice()
    }

    /// Puts a variable into the set, unless it is there already.
    pub(crate) fn insert(&mut self, var: u32)
        requires { var < length self.old }
        ensures { self.new ≡ slice_set self.old var true }
    {
        if !self.marks[var as usize] {
            self.marks[var as usize] = true;
            self.members.push_reserved(var);
        }
    }

    /// Takes out all variables.
    pub(crate) fn clear(&mut self)
        ensures { self.new ≡ replicate (length self.old) false }
    {
        while let Some(var) = self.members.pop() {
            self.marks[var as usize] = false;
        }
    }
}

/// Puts the listed variables into a set.
pub(crate) fn insert_each(set: &mut VariableSet, list: &[u32])
    requires { All (λ var. var < length set.old) list.now }
    ensures { set.new ≡ with_marks set.old list.now }
{
    for var in list {
        set.insert(*var);
    }
}
