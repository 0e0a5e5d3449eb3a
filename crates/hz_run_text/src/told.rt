//! The runs of a run text.

ghost use Rattle.std.specs.Prelude.{◌≡◌, ◌<◌, ◌≤◌, ◌++◌, ◌∷◌, [], length, slice_index_or, IfOk, OnOk, OnErr};
ghost use Rattle.std.specs.Option.{option_map};
ghost use Rattle.hz_run_text.specs.RunInside.{steps_at, cycle_at, HasMore};

use hz_core::Memory;
use hz_gmw::Run;
use std::alloc::Global;
use std::marker::Model;

/// Where the steps of a run stand: the index of the lead's steps; index + 1 of the cycle's, or 0 if it has no cycle.
#[derive(Clone, Copy, Debug)]
pub(crate) struct Places {
    pub(crate) lead: u32,
    pub(crate) cycle: u32,
}

/// Runs, each a lead and at most one cycle. A run takes eight bytes, and only steps take more: a text may have four million runs
/// without a step.
#[derive(Debug, Drop)]
pub(crate) struct ToldRuns {
    // The first has no step, and is shared by all leads and cycles without one.
    told: Vec<Run>,
    places: Vec<Places>,
}

impl Model for ToldRuns {
    ghost use Rattle.std.specs.Prelude.{List};
    ghost use Rattle.hz_text.specs.RunParts.{RunOf};

    ghost Value = { List RunOf };

    ghost use Rattle.hz_run_text.specs.RunInside.{runs_of_fields, HoldsRuns};

    ghost view = { runs_of_fields };

    ghost invariant = { HoldsRuns };
}

impl ToldRuns {
    // No run.
    pub(crate) fn new(alloc: Global) -> Result<ToldRuns, Memory>
        ensures { IfOk result (λ runs. runs ≡ []) }
    {
        let mut told = Vec::new(alloc);
        told.push(Run::new(alloc))?;
        Ok(ToldRuns {
            told,
            places: Vec::new(alloc),
        })
    }

    // Adds a run after the last one.
    pub(crate) fn push(&mut self, lead: Run, cycle: Option<Run>) -> Result<(), Memory>
        ensures ok { OnOk result
            (self.new ≡ self.old
            ++ record { lead = lead.steps; cycle = option_map (λ run. run.steps) cycle } ∷ []) }
        ensures err { OnErr result (self.new ≡ self.old) }
    {
        let lead = tell(&mut self.told, lead)?;
        let cycle = tell_cycle(&mut self.told, cycle)?;
        self.places.push(Places { lead, cycle })?;
        Ok(())
    }

    // The number of runs.
    pub(crate) fn len(&self) -> usize
        ensures { result ≡ length self.now }
    {
        self.places.len()
    }

    // The steps of a run up to its cycle. Runs are numbered from 0.
    pub(crate) fn lead(&self, number: usize) -> &Run
        requires { number < length self.now }
        ensures { result.now.steps ≡
            (slice_index_or self.now number (record { lead = []; cycle = None })).lead }
    {
        let places = self.places[number];
        &self.told[places.lead as usize]
    }

    // The steps of a run's cycle, if it has one.
    pub(crate) fn cycle(&self, number: usize) -> Option<&Run>
        requires { number < length self.now }
        ensures { option_map (λ run. run.now.steps) result ≡
            (slice_index_or self.now number (record { lead = []; cycle = None })).cycle }
    {
        let places = self.places[number];
        match places.cycle.checked_sub(1) {
            Some(place) => Some(&self.told[place as usize]),
            None => None,
        }
    }
}

// The place of steps. If there are some, they are told now.
fn tell(told: &mut Vec<Run>, run: Run) -> Result<u32, Memory>
    requires some { 0 < length told.old.items }
    requires none { steps_at told.old.items 0 ≡ [] }
    ensures more { HasMore told.old.items told.new.items }
    ensures within { IfOk result (λ place. (place < length told.new.items) × (place < 4294967295)) }
    ensures steps { IfOk result (λ place. steps_at told.new.items place ≡ run.steps) }
{
    if run.steps() == 0 {
        return Ok(0);
    }
    let place = told.len();
    if place >= u32::MAX as usize {
        return Err(Memory);
    }
    told.push(run)?;
    Ok(place as u32)
}

// One more than the place of a cycle's steps, or 0 if there is no cycle.
fn tell_cycle(told: &mut Vec<Run>, cycle: Option<Run>) -> Result<u32, Memory>
    requires some { 0 < length told.old.items }
    requires none { steps_at told.old.items 0 ≡ [] }
    ensures more { HasMore told.old.items told.new.items }
    ensures within { IfOk result (λ place. place ≤ length told.new.items) }
    ensures steps { IfOk result
        (λ place. cycle_at told.new.items place ≡ option_map (λ run. run.steps) cycle) }
{
    let Some(run) = cycle else {
        return Ok(0);
    };
    let place = tell(told, run)?;
    Ok(place + 1)
}
