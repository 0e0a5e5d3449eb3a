//! A run as it is written down: its steps, each the variables that change in it.
ghost use Rattle.std.specs.Prelude.{◌≡◌, ◌+◌, ◌<◌, ◌≤◌, [], ◌∷◌, ◌++◌, length, slice_index_or, IfOk, OnOk, OnErr};
ghost use Rattle.std.specs.Vec.{vec_len, vec_capacity};
ghost use Rattle.hz_gmw.specs.RunRecord.{flip_count, no_steps};

use hz_core::Memory;
use hz_lists::part_at;
use std::alloc::Global;
use std::marker::Model;

/// The most flips of a run.
const MAX_FLIPS: usize = u32::MAX as usize;

/// A run by its steps, without the state in which it begins. Each step is the list of the variables that change in it at
/// once, in the general multiple-winner model of Brzozowski and Seger.
///
/// Room for steps can be made before they are known, so a search that has begun never runs out of memory. Where a step ends takes 32
/// bits, so room for more than 4,294,967,295 flips is refused as out of memory.
#[derive(Debug, Drop)]
pub struct Run {
    // The variables of all steps, one step after the other, and where each step ends.
    flips: Vec<u32>,
    ends: Vec<u32>,
    // The room that was made and not yet used. The vectors may have more.
    spare_flips: usize,
    spare_steps: usize,
}

impl Model for Run {
    ghost use Rattle.hz_gmw.specs.RunRecord.{RunRecord};

    ghost Value = { RunRecord };

    ghost use Rattle.hz_gmw.specs.Inside.{run_record_of, HoldsRun};

    ghost view = { run_record_of };

    ghost invariant = { HoldsRun };
}

impl Run {
    /// A run with no step. It allocates nothing.
    pub fn new(alloc: Global) -> Run
        ensures { result ≡ no_steps }
    {
        Run {
            flips: Vec::new(alloc),
            ends: Vec::new(alloc),
            spare_flips: 0,
            spare_steps: 0,
        }
    }

    /// A run with no step, and with room for steps with that many flips in all.
    pub fn with_room(alloc: Global, flips: usize, steps: usize) -> Result<Run, Memory>
        ensures steps { IfOk result (λ run. run.steps ≡ []) }
        ensures room_for_flips { IfOk result (λ run. flips ≤ run.spare_flips) }
        ensures room_for_steps { IfOk result (λ run. steps ≤ run.spare_steps) }
    {
        let mut run = Run::new(alloc);
        run.reserve(flips, steps)?;
        Ok(run)
    }

    /// Makes room for more steps with that many flips in all.
    pub fn reserve(&mut self, flips: usize, steps: usize) -> Result<(), Memory>
        ensures steps { self.new.steps ≡ self.old.steps }
        ensures room_for_flips { OnOk result (flips ≤ self.new.spare_flips) }
        ensures room_for_steps { OnOk result (steps ≤ self.new.spare_steps) }
        ensures kept_flips { self.old.spare_flips ≤ self.new.spare_flips }
        ensures kept_steps { self.old.spare_steps ≤ self.new.spare_steps }
        ensures err { OnErr result (self.new ≡ self.old) }
    {
        if flips > MAX_FLIPS - self.flips.len() {
            return Err(Memory);
        }
        self.flips.reserve(flips)?;
        self.ends.reserve(steps)?;
        self.spare_flips = self.spare_flips.max(flips);
        self.spare_steps = self.spare_steps.max(steps);
        Ok(())
    }

    /// Adds a step. It takes one step and its flips from the room, and no more.
    pub fn push_step(&mut self, flips: &[u32])
        requires room_for_flips { length flips.now ≤ self.old.spare_flips }
        requires room_for_steps { 1 ≤ self.old.spare_steps }
        ensures steps { self.new.steps ≡ self.old.steps ++ flips.now ∷ [] }
        ensures spare_flips { self.new.spare_flips + length flips.now ≡ self.old.spare_flips }
        ensures spare_steps { self.new.spare_steps + 1 ≡ self.old.spare_steps }
    {
        append(&mut self.flips, flips);
        self.ends.push_reserved(self.flips.len() as u32);
        self.spare_flips -= flips.len();
        self.spare_steps -= 1;
    }

    /// Empties the run. What its steps and flips took is room again.
    pub fn clear(&mut self)
        ensures steps { self.new.steps ≡ [] }
        ensures spare_flips { self.new.spare_flips
            ≡ self.old.spare_flips + flip_count self.old.steps }
        ensures spare_steps { self.new.spare_steps ≡ self.old.spare_steps + length self.old.steps }
    {
        self.spare_flips += self.flips.len();
        self.spare_steps += self.ends.len();
        self.flips.clear();
        self.ends.clear();
    }

    /// Takes over the steps of another run, in place of those that were there. What these took is room again.
    pub fn copy_from(&mut self, other: &Run)
        requires room_for_flips { flip_count other.now.steps
            ≤ self.old.spare_flips + flip_count self.old.steps }
        requires room_for_steps { length other.now.steps
            ≤ self.old.spare_steps + length self.old.steps }
        ensures steps { self.new.steps ≡ other.now.steps }
        ensures spare_flips { self.new.spare_flips + flip_count other.now.steps
            ≡ self.old.spare_flips + flip_count self.old.steps }
        ensures spare_steps { self.new.spare_steps + length other.now.steps
            ≡ self.old.spare_steps + length self.old.steps }
    {
        self.clear();
        append(&mut self.flips, other.flips.as_slice());
        append(&mut self.ends, other.ends.as_slice());
        self.spare_flips -= other.flips.len();
        self.spare_steps -= other.ends.len();
    }

    /// The number of steps.
    pub fn steps(&self) -> usize
        ensures { result ≡ length self.now.steps }
    {
        self.ends.len()
    }

    /// The number of flips in all steps.
    pub fn flips(&self) -> usize
        ensures { result ≡ flip_count self.now.steps }
    {
        self.flips.len()
    }

    /// The variables that change in a step, in the order in which they were given. Steps are counted from 0.
    pub fn step(&self, number: usize) -> &[u32]
        requires { number < length self.now.steps }
        ensures { result.now ≡ slice_index_or self.now.steps number [] }
    {
        part_at(self.flips.as_slice(), self.ends.as_slice(), number)
    }
}

// Appends. There is room. Most steps have one flip, which is pushed without a copy of many.
#[inline(always)]
fn append<T: Copy>(list: &mut Vec<T>, more: &[T])
    requires { vec_len list.old + length more.now ≤ vec_capacity list.old }
    ensures items { list.new.items ≡ list.old.items ++ more.now }
    ensures len { vec_len list.new ≡ vec_len list.old + length more.now }
    ensures capacity { vec_capacity list.old ≤ vec_capacity list.new }
{
    if let [one] = more {
        list.push_reserved(*one);
    } else {
        list.extend_from_slice(more).unwrap();
    }
}
