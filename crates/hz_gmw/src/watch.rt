//! The variables that are watched: those that may have waited ever since the mark.
ghost use Rattle.std.specs.Prelude.{◌≡◌, ◌<◌, ◌-◌, false, [], ◌∷◌, length, count_by, All, IfOk, IsTrue, replicate};
ghost use Rattle.std.specs.List.{range_with_len};
ghost use Rattle.hz_net.specs.Network.{network_of, driver_at, bit_at, IsVariable};
ghost use Rattle.hz_lists.specs.Least.{IsLeastOf};
ghost use Rattle.hz_gmw.specs.CurrentState.{IsCounted, IsExact, with_marks};
ghost use Rattle.hz_gmw.specs.Watches.{WatchFits, NotesStable, lapses, watched_in, watched_variables, unstable_unchanged};

use crate::current_state::{CurrentState, kind_at, one_if};
use crate::variable_set::{VariableSet, insert_each};
use hz_core::Memory;
use hz_net::{Net, VarKind};
use std::alloc::Global;

/// What happened since the mark: which variables changed, and which gates were stable when a wire into them changed. An
/// unstable wire is watched unless its source changed: had the wire changed and its source not, the wire would be stable. An
/// unstable node is watched unless it changed or was stable.
#[derive(Debug, Drop)]
pub(crate) struct Watch {
    pub changed: VariableSet,
    pub been_stable: VariableSet,
}

impl Watch {
    /// Nothing happened.
    pub(crate) fn new(alloc: Global, net: &Net) -> Result<Watch, Memory>
        ensures changed { IfOk result
            (λ watch. watch.changed ≡ replicate (length (network_of net.now)) false) }
        ensures been_stable { IfOk result
            (λ watch. watch.been_stable ≡ replicate (length net.now.names) false) }
    {
        let changed = VariableSet::new(alloc, net.len())?;
        let been_stable = VariableSet::new(alloc, net.circuit().nodes())?;
        Ok(Watch {
            changed,
            been_stable,
        })
    }

    /// Notes the listed variables, which are about to change.
    pub(crate) fn note(&mut self, net: &Net, current: &CurrentState, flips: &[u32])
        requires counted { IsCounted net.now current.now }
        requires fits { WatchFits net.now self.old }
        requires inside { All (IsVariable net.now) flips.now }
        ensures changed { self.new.changed ≡ with_marks self.old.changed flips.now }
        ensures been_stable { NotesStable net.now current.now flips.now
            self.old.been_stable self.new.been_stable }
    {
        for var in flips {
            self.note_gate(net, current, *var);
        }
        insert_each(&mut self.changed, flips);
    }

    /// Forgets what happened.
    pub(crate) fn clear(&mut self)
        ensures changed { self.new.changed ≡ replicate (length self.old.changed) false }
        ensures been_stable { self.new.been_stable ≡ replicate (length self.old.been_stable) false }
    {
        self.changed.clear();
        self.been_stable.clear();
    }

    /// The least watched variable. The variables are searched only if some are watched.
    pub(crate) fn least(&self, net: &Net, current: &CurrentState) -> Option<u32>
        requires exact { IsExact net.now current.now }
        requires fits { WatchFits net.now self.now }
        ensures { IsLeastOf (λ i. (IsVariable net.now i)
            × IsTrue (bit_at (watched_variables (network_of net.now)
            current.now.input.items current.now.state.items
            (bit_at self.now.changed) (bit_at self.now.been_stable)) i)) result }
    {
        if self.count(net, current) == 0 {
            return None;
        }
        for var in 0..net.len() {
            if self.contains(net, current, var) {
                return Some(var);
            }
        }
        None
    }

    // How many variables are watched: those that are unstable, without those to which something happened.
    fn count(&self, net: &Net, current: &CurrentState) -> u32
        requires exact { IsExact net.now current.now }
        requires fits { WatchFits net.now self.now }
        ensures { result ≡ count_by (watched_in net.now current.now self.now)
            (range_with_len 0 (length (network_of net.now))) }
    {
        let unstable = current.unstable;
        let unchanged = current.without_nodes(net, unstable, self.changed.members());
        self.without_stable(net, current, unchanged, self.been_stable.members())
    }

    // A number less how many of the listed nodes are unstable and did not change.
    fn without_stable(&self, net: &Net, current: &CurrentState, number: u32, list: &[u32]) -> u32
        requires counted { IsCounted net.now current.now }
        requires fits { WatchFits net.now self.now }
        requires inside { All (λ node. node < length net.now.names) list.now }
        ensures { result ≡ number - count_by (unstable_unchanged (network_of net.now)
            current.now.input.items current.now.state.items (bit_at self.now.changed)) list.now }
    {
        let mut left = number;
        for node in list {
            let counts = current.is_unstable(net, *node) && !self.changed.contains(*node);
            left = left.saturating_sub(one_if(counts));
        }
        left
    }

    // Whether a variable is watched.
    fn contains(&self, net: &Net, current: &CurrentState, var: u32) -> bool
        requires counted { IsCounted net.now current.now }
        requires fits { WatchFits net.now self.now }
        requires var { IsVariable net.now var }
        ensures { result ≡ watched_in net.now current.now self.now var }
    {
        current.is_unstable(net, var) && !self.lapsed(net, var)
    }

    // Whether something happened for which a variable is watched no longer.
    fn lapsed(&self, net: &Net, var: u32) -> bool
        requires fits { WatchFits net.now self.now }
        requires var { IsVariable net.now var }
        ensures { result ≡ lapses (driver_at (network_of net.now) var)
            (bit_at self.now.changed) (bit_at self.now.been_stable) var }
    {
        match kind_at(net, var) {
            VarKind::Wire { source, .. } => self.changed.contains(source),
            VarKind::Input { .. } => self.changed.contains(var) || self.been_stable.contains(var),
            VarKind::Gate { .. } => self.changed.contains(var) || self.been_stable.contains(var),
        }
    }

    // Notes the gate of a wire that is about to change, if the gate is stable.
    fn note_gate(&mut self, net: &Net, current: &CurrentState, var: u32)
        requires counted { IsCounted net.now current.now }
        requires fits { WatchFits net.now self.old }
        requires var { IsVariable net.now var }
        ensures changed { self.new.changed ≡ self.old.changed }
        ensures been_stable { NotesStable net.now current.now (var ∷ [])
            self.old.been_stable self.new.been_stable }
    {
        if let VarKind::Wire { gate, .. } = kind_at(net, var) {
            if !current.is_unstable(net, gate) {
                self.been_stable.insert(gate);
            }
        }
    }
}
