//! The runs that are found.
ghost use Rattle.std.specs.Prelude.{◌≡◌, ◌+◌, ◌*◌, ◌<◌, ◌≤◌, ◌++◌, [], length, take, slice_index_or, IfOk};
ghost use Rattle.hz_gmw.specs.RunRecord.{flip_count};
ghost use Rattle.hz_split.specs.Attempts.{flips_alone};
ghost use Rattle.hz_split.specs.FoundRuns.{with_run, HasRoomFor};

use hz_core::Memory;
use hz_gmw::Run;
use std::alloc::Global;
use std::marker::Model;

/// At most two runs, the states in which they end differing, and the state in which the first one ends.
#[derive(Debug, Drop)]
pub(crate) struct Found {
    first: Run,
    second: Run,
    ending: Vec<bool>,
    count: usize,
}

impl Model for Found {
    ghost use Rattle.hz_split.specs.FoundRuns.{FoundOf};

    ghost Value = { FoundOf };

    ghost use Rattle.hz_split.specs.InsideFound.{found_of, HoldsFound};

    ghost view = { found_of };

    ghost invariant = { HoldsFound };
}

impl Found {
    /// No run, and room for two on a network of so many variables.
    pub(crate) fn new(alloc: Global, variables: u32) -> Result<Found, Memory>
        ensures runs { IfOk result (λ found. found.runs ≡ []) }
        ensures room { IfOk result (λ found. found.variables ≡ variables) }
    {
        let room = variables as usize;
        Ok(Found {
            first: Run::with_room(alloc, 8 * room, 4 * room + 64)?,
            second: Run::with_room(alloc, 8 * room, 4 * room + 64)?,
            ending: vec![in alloc; false; room]?,
            count: 0,
        })
    }

    /// Forgets all runs.
    pub(crate) fn clear(&mut self)
        ensures runs { self.new.runs ≡ [] }
        ensures room { self.new.variables ≡ self.old.variables }
    {
        self.count = 0;
    }

    /// How many runs there are.
    pub(crate) fn count(&self) -> usize
        ensures count { result ≡ length self.now.runs }
        ensures few { result ≤ 2 }
    {
        self.count
    }

    /// A run, counted from 0.
    pub(crate) fn run(&self, number: usize) -> &Run
        requires { number < length self.now.runs }
        ensures { result.now.steps ≡ slice_index_or self.now.runs number [] }
    {
        if number == 0 {
            &self.first
        } else {
            &self.second
        }
    }

    /// Adds a run that ends in a state: the first one, or a second one if it ends in another state than the first. The run has
    /// the steps of `settle`, so many of `cycle`, and then one for each turn.
    pub(crate) fn add(
        &mut self,
        settle: &Run,
        cycle: &Run,
        front: usize,
        turns: &[u32],
        state: &[bool],
    )
        requires room { HasRoomFor self.old.variables settle.now.steps cycle.now.steps front
            turns.now }
        requires state { length state.now ≡ self.old.variables }
        ensures runs { self.new
            ≡ with_run self.old
            (settle.now.steps ++ take front cycle.now.steps ++ flips_alone turns.now)
            state.now }
    {
        if self.count == 0 {
            write_run(&mut self.first, settle, cycle, front, turns);
            self.ending.as_mut_slice().copy_from_slice(state);
            self.count = 1;
        } else if self.count == 1 && self.ending.as_slice() != state {
            write_run(&mut self.second, settle, cycle, front, turns);
            self.count = 2;
        }
    }
}

// Writes a run in place of the one that was there.
fn write_run(run: &mut Run, settle: &Run, cycle: &Run, front: usize, turns: &[u32])
    requires front { front ≤ length cycle.now.steps }
    requires flips { flip_count settle.now.steps + flip_count cycle.now.steps + length turns.now
        ≤ run.old.spare_flips + flip_count run.old.steps }
    requires steps { length settle.now.steps + front + length turns.now
        ≤ run.old.spare_steps + length run.old.steps }
    ensures steps { run.new.steps
        ≡ settle.now.steps ++ take front cycle.now.steps ++ flips_alone turns.now }
    ensures spare_flips { run.new.spare_flips + flip_count run.new.steps
        ≡ run.old.spare_flips + flip_count run.old.steps }
    ensures spare_steps { run.new.spare_steps + length run.new.steps
        ≡ run.old.spare_steps + length run.old.steps }
{
    run.copy_from(settle);
    add_front(run, cycle, front);
    add_turns(run, turns);
}

// Adds the first steps of a cycle.
fn add_front(run: &mut Run, cycle: &Run, front: usize)
    requires front { front ≤ length cycle.now.steps }
    requires flips { flip_count (take front cycle.now.steps) ≤ run.old.spare_flips }
    requires room { front ≤ run.old.spare_steps }
    ensures steps { run.new.steps ≡ run.old.steps ++ take front cycle.now.steps }
    ensures spare_flips { run.new.spare_flips + flip_count (take front cycle.now.steps)
        ≡ run.old.spare_flips }
    ensures spare_steps { run.new.spare_steps + front ≡ run.old.spare_steps }
{
    for number in 0..front {
        run.push_step(cycle.step(number));
    }
}

// Adds a step for each turn.
fn add_turns(run: &mut Run, turns: &[u32])
    requires flips { length turns.now ≤ run.old.spare_flips }
    requires room { length turns.now ≤ run.old.spare_steps }
    ensures steps { run.new.steps ≡ run.old.steps ++ flips_alone turns.now }
    ensures spare_flips { run.new.spare_flips + length turns.now ≡ run.old.spare_flips }
    ensures spare_steps { run.new.spare_steps + length turns.now ≡ run.old.spare_steps }
{
    for var in turns {
        run.push_step(&[*var]);
    }
}
