//! One round of a pass, which evaluates some of the variables.
//!
//! The first round lists what it evaluates, without a branch: with the lists of `hz_reach` this gains 7 % of a script's time (2,000 changes
//! of 2,000 variables).
ghost use Rattle.std.specs.Prelude.{◌≡◌, ℕ, ◌+◌, ◌<◌, ◌≤◌, [], false, IsTrue, length, not, fold, slice_set, sum_by, vec_capacity, All};
ghost use Rattle.hz_core.specs.Netlist.{IsCircuit};
ghost use Rattle.hz_net.specs.Network.{network_of, value_at, IsVariable};
ghost use Rattle.hz_net.specs.Reads.{readers_of};
ghost use Rattle.hz_pass.specs.Frontier.{next_value, is_open, reader_count, with_values_of};
ghost use Rattle.hz_pass.specs.InRound.{CanBeMade, IsExcitedIn, IsMadeIn, IsQuietIn, KeepsMade, LeavesFrom, ListsOpen, Makes, MakesSoFar};

use hz_core::Tri;
use hz_lists::Steps;
use hz_net::{Net, VarKind};
use std::sync::ledger::Ledger;

/// How a round makes the next value of a variable of its value and its excitation.
#[derive(Clone, Copy, Debug)]
pub(crate) enum Rule {
    // Algorithm A joins them.
    Join,
    // Algorithm B takes the excitation.
    Replace,
}

impl Rule {
    fn next(self, value: Tri, excited: Tri) -> Tri
        ensures { result ≡ next_value self value excited }
    {
        match self {
            Rule::Join => value.join(excited),
            Rule::Replace => excited,
        }
    }

    // Whether no round changes a value any more: a join with X is X, and what is put in the place of a known value is
    // that value.
    fn is_final(self, value: Tri) -> bool
        ensures { result ≡ not (is_open self value) }
    {
        match self {
            Rule::Join => value == Tri::Unknown,
            Rule::Replace => value != Tri::Unknown,
        }
    }

    // Whether this is so of sixteen values. It has no branch between two of them.
    fn are_final(self, values: &[Tri], first: usize) -> bool
        requires { first + 16 ≤ length values.now }
        ensures { IsTrue result → (i : ℕ) → i < 16
            → is_open self (value_at values.now (first + i)) ≡ false }
    {
        let mut all = true;
        for place in 0..16 {
            all &= self.is_final(values[first + place]);
        }
        all
    }
}

/// A round from a state. What it makes is written into another list, so no evaluation sees a value of this round.
#[derive(Clone, Copy, Debug)]
pub(crate) struct Round<'a> {
    pub rule: Rule,
    pub net: &'a Net,
    pub input: &'a [bool],
    pub state: &'a [Tri],
}

impl Round<'_> {
    /// Evaluates the variables below a number, but for final values. The round leaves all others as they are. `listed` is room for those
    /// that it evaluates.
    pub(crate) fn evaluate_first<L: Ledger>(
        &self,
        count: u32,
        listed: &mut Vec<u32>,
        next: &mut [Tri],
        changed: &mut Vec<u32>,
        steps: &mut Steps<L>,
    )
        requires round { CanBeMade self.now }
        requires count { count ≤ length (network_of self.now.net.now) }
        requires rest { LeavesFrom count self.now }
        requires none_listed { listed.old.items ≡ [] }
        requires listed_fit { length (network_of self.now.net.now) ≤ vec_capacity listed.old }
        requires next { next.old ≡ self.now.state.now }
        requires none { changed.old.items ≡ [] }
        requires room { length (network_of self.now.net.now) ≤ vec_capacity changed.old }
        ensures round { Makes self.now next.new changed.new.items }
        ensures listed { vec_capacity listed.new ≡ vec_capacity listed.old }
        ensures room { vec_capacity changed.new ≡ vec_capacity changed.old }
        ensures steps { steps.new ≤ steps.old + count }
        ensures counted { steps.old + length changed.new.items ≤ steps.new }
    {
        self.list_open(count, listed);
        self.evaluate_listed(listed.as_slice(), next, changed, steps);
    }

    // Lists the variables below a number whose values are not final.
    fn list_open(&self, count: u32, listed: &mut Vec<u32>)
        requires round { CanBeMade self.now }
        requires count { count ≤ length (network_of self.now.net.now) }
        requires none { listed.old.items ≡ [] }
        requires room { length (network_of self.now.net.now) ≤ vec_capacity listed.old }
        ensures listed { ListsOpen self.now count listed.new.items }
        ensures capacity { vec_capacity listed.new ≡ vec_capacity listed.old }
    {
        for block in 0..count / 16 {
            self.list_sixteen(block * 16, listed);
        }
        self.list_range(count / 16 * 16, count, listed);
    }

    // Lists those of the next sixteen variables whose values are not final. Most blocks have none.
    fn list_sixteen(&self, first: u32, listed: &mut Vec<u32>)
        requires round { CanBeMade self.now }
        requires inside { first + 16 ≤ length (network_of self.now.net.now) }
        requires fits { first + 16 < 4294967296 }
        requires room { length (network_of self.now.net.now) ≤ vec_capacity listed.old }
        requires listed { ListsOpen self.now first listed.old.items }
        ensures listed { ListsOpen self.now (first + 16) listed.new.items }
        ensures capacity { vec_capacity listed.new ≡ vec_capacity listed.old }
    {
        if self.rule.are_final(self.state, first as usize) {
            return;
        }
        self.list_range(first, first + 16, listed);
    }

    // Lists those of the variables from one number on and below another whose values are not final.
    fn list_range(&self, from: u32, below: u32, listed: &mut Vec<u32>)
        requires round { CanBeMade self.now }
        requires from { from ≤ below }
        requires inside { below ≤ length (network_of self.now.net.now) }
        requires room { length (network_of self.now.net.now) ≤ vec_capacity listed.old }
        requires listed { ListsOpen self.now from listed.old.items }
        ensures listed { ListsOpen self.now below listed.new.items }
        ensures capacity { vec_capacity listed.new ≡ vec_capacity listed.old }
    {
        for var in from..below {
            self.list_one(var, listed);
        }
    }

    // Lists the next variable, if its value is not final. It has no branch: the variable is put last, and the list ends before it or
    // behind it.
    #[inline(always)]
    fn list_one(&self, var: u32, listed: &mut Vec<u32>)
        requires round { CanBeMade self.now }
        requires var { IsVariable self.now.net.now var }
        requires room { length (network_of self.now.net.now) ≤ vec_capacity listed.old }
        requires listed { ListsOpen self.now var listed.old.items }
        ensures listed { ListsOpen self.now (var + 1) listed.new.items }
        ensures capacity { vec_capacity listed.new ≡ vec_capacity listed.old }
    {
        let is_open = !self.rule.is_final(self.state[var as usize]);
        let count = listed.len();
        listed.push_reserved(var);
        listed.truncate(count + is_open as usize);
    }

    // Evaluates the listed variables.
    fn evaluate_listed<L: Ledger>(
        &self,
        listed: &[u32],
        next: &mut [Tri],
        changed: &mut Vec<u32>,
        steps: &mut Steps<L>,
    )
        requires round { CanBeMade self.now }
        requires inside { All (IsVariable self.now.net.now) listed.now }
        requires so_far { MakesSoFar self.now next.old changed.old.items }
        requires room { length (network_of self.now.net.now) ≤ vec_capacity changed.old }
        ensures so_far { MakesSoFar self.now next.new changed.new.items }
        ensures made { All (IsMadeIn self.now next.new) listed.now }
        ensures room { vec_capacity changed.new ≡ vec_capacity changed.old }
        ensures steps { steps.new ≡ steps.old + length listed.now }
        ensures counted { steps.old + length changed.new.items
            ≤ steps.new + length changed.old.items }
    {
        for var in listed {
            let excited = self.net.excite3(self.input, self.state, *var, steps);
            self.put(*var, excited, next, changed);
        }
    }

    /// Evaluates the readers of the variables that the round before changed, which are due.
    pub(crate) fn evaluate_readers<L: Ledger>(
        &self,
        due: &[u32],
        next: &mut [Tri],
        changed: &mut Vec<u32>,
        steps: &mut Steps<L>,
    )
        requires circuit { IsCircuit self.now.net.now }
        requires round { CanBeMade self.now }
        requires quiet { IsQuietIn self.now due.now }
        requires due { All (IsVariable self.now.net.now) due.now }
        requires next { next.old ≡ self.now.state.now }
        requires none { changed.old.items ≡ [] }
        requires room { length (network_of self.now.net.now) ≤ vec_capacity changed.old }
        ensures round { Makes self.now next.new changed.new.items }
        ensures room { vec_capacity changed.new ≡ vec_capacity changed.old }
        ensures steps { steps.new ≡ steps.old + sum_by (reader_count self.now.net.now) due.now }
        ensures counted { steps.old + length changed.new.items ≤ steps.new }
    {
        for source in due {
            self.evaluate_from(*source, next, changed, steps);
        }
    }

    // Evaluates the readers of a variable.
    fn evaluate_from<L: Ledger>(
        &self,
        source: u32,
        next: &mut [Tri],
        changed: &mut Vec<u32>,
        steps: &mut Steps<L>,
    )
        requires circuit { IsCircuit self.now.net.now }
        requires round { CanBeMade self.now }
        requires source { IsVariable self.now.net.now source }
        requires so_far { MakesSoFar self.now next.old changed.old.items }
        requires room { length (network_of self.now.net.now) ≤ vec_capacity changed.old }
        ensures so_far { MakesSoFar self.now next.new changed.new.items }
        ensures made { All (IsMadeIn self.now next.new) (readers_of self.now.net.now source) }
        ensures kept { KeepsMade self.now next.old next.new }
        ensures room { vec_capacity changed.new ≡ vec_capacity changed.old }
        ensures steps { steps.new ≡ steps.old + reader_count self.now.net.now source }
        ensures counted { steps.old + length changed.new.items
            ≤ steps.new + length changed.old.items }
    {
        if let VarKind::Wire { gate, .. } = self.net.kind_of(source) {
            self.evaluate(gate, next, changed, steps);
        } else {
            self.evaluate_wires(
                self.net.readers(source),
                self.state[source as usize],
                next,
                changed,
                steps,
            );
        }
    }

    // Evaluates wires from a node, whose value excites them.
    fn evaluate_wires<L: Ledger>(
        &self,
        wires: &[u32],
        value: Tri,
        next: &mut [Tri],
        changed: &mut Vec<u32>,
        steps: &mut Steps<L>,
    )
        requires round { CanBeMade self.now }
        requires inside { All (IsVariable self.now.net.now) wires.now }
        requires excited { All (IsExcitedIn self.now value) wires.now }
        requires so_far { MakesSoFar self.now next.old changed.old.items }
        requires room { length (network_of self.now.net.now) ≤ vec_capacity changed.old }
        ensures so_far { MakesSoFar self.now next.new changed.new.items }
        ensures made { All (IsMadeIn self.now next.new) wires.now }
        ensures kept { KeepsMade self.now next.old next.new }
        ensures room { vec_capacity changed.new ≡ vec_capacity changed.old }
        ensures steps { steps.new ≡ steps.old + length wires.now }
        ensures counted { steps.old + length changed.new.items
            ≤ steps.new + length changed.old.items }
    {
        for wire in wires {
            steps.tick();
            self.put(*wire, value, next, changed);
        }
    }

    // Evaluates a variable, and lists it if this changes it. It may have been evaluated in this round already. Nothing
    // is left to do for a final value, but it counts as an evaluation too.
    #[inline(always)]
    fn evaluate<L: Ledger>(
        &self,
        var: u32,
        next: &mut [Tri],
        changed: &mut Vec<u32>,
        steps: &mut Steps<L>,
    )
        requires round { CanBeMade self.now }
        requires var { IsVariable self.now.net.now var }
        requires so_far { MakesSoFar self.now next.old changed.old.items }
        requires room { length (network_of self.now.net.now) ≤ vec_capacity changed.old }
        ensures so_far { MakesSoFar self.now next.new changed.new.items }
        ensures made { IsMadeIn self.now next.new var }
        ensures kept { KeepsMade self.now next.old next.new }
        ensures room { vec_capacity changed.new ≡ vec_capacity changed.old }
        ensures steps { steps.new ≡ steps.old + 1 }
        ensures counted { steps.old + length changed.new.items
            ≤ steps.new + length changed.old.items }
    {
        if self.rule.is_final(next[var as usize]) {
            steps.tick();
            return;
        }
        let excited = self.net.excite3(self.input, self.state, var, steps);
        self.put(var, excited, next, changed);
    }

    // Gives a variable the value that its excitation makes, and lists it if this changes it.
    fn put(&self, var: u32, excited: Tri, next: &mut [Tri], changed: &mut Vec<u32>)
        requires round { CanBeMade self.now }
        requires var { IsVariable self.now.net.now var }
        requires excited { IsExcitedIn self.now excited var }
        requires so_far { MakesSoFar self.now next.old changed.old.items }
        requires room { length (network_of self.now.net.now) ≤ vec_capacity changed.old }
        ensures so_far { MakesSoFar self.now next.new changed.new.items }
        ensures made { IsMadeIn self.now next.new var }
        ensures kept { KeepsMade self.now next.old next.new }
        ensures room { vec_capacity changed.new ≡ vec_capacity changed.old }
        ensures counted { length changed.new.items ≤ 1 + length changed.old.items }
    {
        let value = self.rule.next(self.state[var as usize], excited);
        if next[var as usize] != value {
            next[var as usize] = value;
            changed.push_reserved(var);
        }
    }
}

/// Takes the changed values over into the state, and notes the round at each of them.
pub(crate) fn take_over(
    changed: &[u32],
    next: &[Tri],
    round: u32,
    state: &mut [Tri],
    noted: &mut [u32],
)
    requires inside { All (λ var. var < length next.now) changed.now }
    requires state { length state.old ≡ length next.now }
    requires noted { length noted.old ≡ length next.now }
    ensures state { state.new ≡ with_values_of next.now state.old changed.now }
    ensures noted { noted.new ≡ fold
        (λ noted var. slice_set noted var round) noted.old changed.now }
{
    for var in changed {
        state[*var as usize] = next[*var as usize];
        noted[*var as usize] = round;
    }
}
