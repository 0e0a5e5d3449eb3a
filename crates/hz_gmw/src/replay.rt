//! The replayer of runs.
ghost use Rattle.std.specs.Prelude.{◌≡◌, ◌<◌, ◌↔◌, ◌≢◌, ℕ, List, [], ◌∷◌, ◌++◌, false, length, replicate, All, MatchOption, IfOk, IfErr, OnOk, IsTrue, is_ok, if◌then◌else◌};
ghost use Rattle.hz_net.specs.Network.{network_of, bit_at, IsUnstable, IsState, IsInput, IsVariable};
ghost use Rattle.hz_gmw.specs.Instability.{unstable_count};
ghost use Rattle.hz_lists.specs.Least.{IsLeastOf};
ghost use Rattle.hz_gmw.specs.Replayer.{StandsFor, replayer_at, initial_replayer, replayer_after};
ghost use Rattle.hz_gmw.specs.ReplayAnswers.{IsStepFor, IsStepFaultFor, IsCycleFor, IsCycleFaultFor};
ghost use Rattle.hz_gmw.specs.CurrentState.{with_bits_of};

use crate::current_state::CurrentState;
use crate::least::{least_differing, least_repeated};
use crate::variable_set::{VariableSet, insert_each};
use crate::watch::Watch;
use crate::{CycleFault, StepFault};
use hz_core::Memory;
use hz_net::Net;
use std::alloc::Global;
use std::marker::Model;

/// Replays runs of the general multiple-winner relation (Brzozowski and Seger) on a network, step by step, and says of the
/// states since a mark whether they are a nontransient cycle.
///
/// Numbers of variables are those of the network. A step costs the variables that it changes, whatever their fan-out, a
/// mark or the end of a cycle what changed since the mark, and a look at a variable or at the number of unstable ones takes
/// constant time. Three calls cost the whole network: `new`; `begin`, which compares each input and each variable; and a
/// `close` that is refused for an unstable variable, which it has to find. Of many runs from one state the first begins
/// there and each further one restarts, which costs what the run before it changed. Only `new` takes memory.
#[derive(Debug, Drop)]
pub struct Replay<'n> {
    net: &'n Net,
    current: CurrentState,
    // The marked state, what happened since the mark, and whether a step was made since.
    marked: Vec<bool>,
    watch: Watch,
    stepped: bool,
    // The state in which it began, and the variables that changed since.
    begun: Vec<bool>,
    moved: VariableSet,
    // Room to find what a list repeats.
    named: VariableSet,
}

impl<'n> Model for Replay<'n> {
    ghost use Rattle.hz_gmw.specs.Replayer.{Replayer};

    ghost Value = { Replayer };

    ghost use Rattle.hz_gmw.specs.InsideReplay.{replayer_of, HoldsReplay};

    ghost view = { replayer_of };

    ghost invariant = { HoldsReplay };
}

impl<'n> Replay<'n> {
    /// The current state, in which every input and every variable is 0, is marked.
    pub fn new(alloc: Global, net: &'n Net) -> Result<Replay<'n>, Memory>
        ensures at { IfOk result (λ replay. replay ≡ initial_replayer net.now
            (replicate net.now.inputs false) (replicate (length (network_of net.now)) false)) }
        ensures stands { IfOk result (λ replay. StandsFor replay []) }
    {
        let variables = net.len();
        let current = CurrentState::new(alloc, net)?;
        let marked = vec![in alloc; false; variables as usize]?;
        let watch = Watch::new(alloc, net)?;
        let begun = vec![in alloc; false; variables as usize]?;
        let moved = VariableSet::new(alloc, variables)?;
        let named = VariableSet::new(alloc, variables)?;
        Ok(Replay {
            net,
            current,
            marked,
            watch,
            stepped: false,
            begun,
            moved,
            named,
        })
    }

    /// Sets the external input and the state, one bit for each input and each variable, and marks the state, with no step
    /// since.
    pub fn begin(&mut self, input: &[bool], state: &[bool])
        requires input { IsInput self.old.circuit input.now }
        requires state { IsState self.old.circuit state.now }
        ensures at { self.new ≡ initial_replayer self.old.circuit input.now state.now }
        ensures stands { StandsFor self.new [] }
    {
        self.current.turn_input(self.net, input);
        self.current.turn_to(self.net, state);
        self.begun.as_mut_slice().copy_from_slice(state);
        self.marked.as_mut_slice().copy_from_slice(state);
        self.moved.clear();
        self.mark();
    }

    /// Goes back to the state in which it began last, and marks it, with no step since. It costs what the steps since then
    /// changed, not the whole network.
    pub fn restart(&mut self)
        ensures at { self.new ≡ initial_replayer self.old.circuit self.old.input self.old.begun }
        ensures stands { StandsFor self.new [] }
    {
        self.current
            .turn_back(self.net, self.moved.members(), self.begun.as_slice());
        insert_each(&mut self.watch.changed, self.moved.members());
        self.moved.clear();
        self.mark();
    }

    /// Marks the current state, with no step since.
    pub fn mark(&mut self)
        ensures at { self.new
            ≡ replayer_at self.old.circuit self.old.input self.old.begun self.old.state }
        ensures stands { StandsFor self.new [] }
    {
        take_over(
            self.watch.changed.members(),
            self.current.state.as_slice(),
            self.marked.as_mut_slice(),
        );
        self.watch.clear();
        self.stepped = false;
    }

    /// Makes a step of the multiple-winner relation: changes the listed variables at once. It is refused exactly if they
    /// are no step from the current state, by the first fault that stands; the replayer is then as before.
    pub fn step(&mut self, flips: &[u32]) -> Result<(), StepFault>
        requires { All (IsVariable self.old.circuit) flips.now }
        ensures exact { IsTrue (is_ok result) ↔ IsStepFor self.old flips.now }
        ensures fault { IfErr result (IsStepFaultFor self.old flips.now) }
        ensures after { self.new
            ≡ (if is_ok result then replayer_after self.old flips.now else self.old) }
        ensures stands { OnOk result ((steps : List (List ℕ)) → StandsFor self.old steps
            → StandsFor self.new (steps ++ flips.now ∷ [])) }
    {
        if let Some(fault) = self.step_fault(flips) {
            return Err(fault);
        }
        self.watch.note(self.net, &self.current, flips);
        self.current.advance(self.net, flips);
        insert_each(&mut self.moved, flips);
        self.stepped = true;
        Ok(())
    }

    /// Says whether the states since the mark are a nontransient cycle: a run with a step that ends where it began, around
    /// which no variable waits, or one stable state alone. It is refused exactly if they are not, by the first fault
    /// that stands. The replayer is as before.
    pub fn close(&mut self) -> Result<(), CycleFault>
        ensures exact { (steps : List (List ℕ)) → StandsFor self.old steps
            → IsTrue (is_ok result) ↔ IsCycleFor self.old steps }
        ensures fault { (steps : List (List ℕ)) → StandsFor self.old steps
            → IfErr result (IsCycleFaultFor self.old steps) }
        ensures same { self.new ≡ self.old }
    {
        match self.cycle_fault() {
            Some(fault) => Err(fault),
            None => Ok(()),
        }
    }

    /// The current value of a variable.
    pub fn value(&self, var: u32) -> bool
        requires { IsVariable self.now.circuit var }
        ensures { result ≡ bit_at self.now.state var }
    {
        self.current.state[var as usize]
    }

    /// Whether a variable is unstable in the current state.
    pub fn unstable(&self, var: u32) -> bool
        requires { IsVariable self.now.circuit var }
        ensures { IsTrue result
            ↔ IsUnstable (network_of self.now.circuit) self.now.input self.now.state var }
    {
        self.current.is_unstable(self.net, var)
    }

    /// How many variables are unstable in the current state.
    pub fn unstable_count(&self) -> u32
        ensures { result
            ≡ unstable_count (network_of self.now.circuit) self.now.input self.now.state }
    {
        self.current.unstable
    }

    // Why the listed variables are no step, if they are none.
    fn step_fault(&mut self, flips: &[u32]) -> Option<StepFault>
        requires { All (IsVariable self.old.circuit) flips.now }
        ensures answer { MatchOption result
            (IsStepFor self.old flips.now) (IsStepFaultFor self.old flips.now) }
        ensures same { self.new ≡ self.old }
    {
        if flips.is_empty() {
            return Some(StepFault::Empty);
        }
        if let Some(var) = least_repeated(flips, &mut self.named) {
            return Some(StepFault::Repeated { var });
        }
        if let Some(var) = self.current.least_stable(self.net, flips) {
            return Some(StepFault::Stable { var });
        }
        None
    }

    // Why the states since the mark are no nontransient cycle, if they are none.
    fn cycle_fault(&self) -> Option<CycleFault>
        ensures { (steps : List (List ℕ)) → StandsFor self.now steps
            → MatchOption result (IsCycleFor self.now steps) (IsCycleFaultFor self.now steps) }
    {
        if let Some(var) = self.least_moved() {
            return Some(CycleFault::Differs { var });
        }
        if self.stepped {
            let Some(var) = self.least_watched() else {
                return None;
            };
            return Some(CycleFault::Transient { var });
        }
        let Some(var) = self.least_unstable() else {
            return None;
        };
        Some(CycleFault::NotStable { var })
    }

    // The least variable that has not the value that it had at the mark. What did not change has it.
    fn least_moved(&self) -> Option<u32>
        ensures { IsLeastOf (λ i. bit_at self.now.state i ≢ bit_at self.now.marked i) result }
    {
        least_differing(
            self.watch.changed.members(),
            self.current.state.as_slice(),
            self.marked.as_slice(),
        )
    }

    // The least unstable variable. The variables are searched only if some are unstable.
    fn least_unstable(&self) -> Option<u32>
        ensures { IsLeastOf (λ i. (IsVariable self.now.circuit i)
            × IsUnstable (network_of self.now.circuit) self.now.input self.now.state i) result }
    {
        if self.current.unstable == 0 {
            return None;
        }
        for var in 0..self.net.len() {
            if self.current.is_unstable(self.net, var) {
                return Some(var);
            }
        }
        None
    }

    // The least watched variable.
    fn least_watched(&self) -> Option<u32>
        ensures { IsLeastOf (λ i. (IsVariable self.now.circuit i)
            × IsTrue (bit_at self.now.watched i)) result }
    {
        self.watch.least(self.net, &self.current)
    }
}

// Gives listed variables of the marked state the values that they have in the current one.
fn take_over(list: &[u32], state: &[bool], marked: &mut [bool])
    requires inside { All (λ var. var < length state.now) list.now }
    requires long { length marked.old ≡ length state.now }
    ensures { marked.new ≡ with_bits_of state.now marked.old list.now }
{
    for var in list {
        marked[*var as usize] = state[*var as usize];
    }
}
