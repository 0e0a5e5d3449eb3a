//! The runs of a run text, built statement by statement.

ghost use Rattle.std.specs.Prelude.{◌≡◌, [], ◌++◌, ◌∷◌, IsSome, Some, None, IfOk, OnOk};
ghost use Rattle.hz_run_text.specs.RunStatement.{Run as RunLine, Cycle};
ghost use Rattle.hz_run_text.specs.RunOrder.{place_after};
ghost use Rattle.hz_run_text.specs.RunValue.{with_step};
ghost use Rattle.hz_run_text.specs.RunText.{step_of};
ghost use Rattle.hz_run_text.specs.RunBuilt.{last_place, IsRunAdded};

use crate::told::ToldRuns;
use hz_core::Memory;
use hz_gmw::Run;
use std::alloc::Global;
use std::marker::Model;
use std::mem;

// A run whose statements are being read.
#[derive(Debug, Drop)]
struct OpenRun {
    lead: Run,
    cycle: Option<Run>,
}

impl Model for OpenRun {
    ghost use Rattle.hz_text.specs.RunParts.{RunOf};

    ghost Value = { RunOf };

    ghost use Rattle.hz_run_text.specs.RunInside.{run_of_fields};

    ghost view = { run_of_fields };
}

impl OpenRun {
    // A run without a step and without a cycle.
    fn new(alloc: Global) -> OpenRun
        ensures { result ≡ record { lead = []; cycle = None } }
    {
        OpenRun {
            lead: Run::new(alloc),
            cycle: None,
        }
    }

    // Begins the cycle, in place of one that was there.
    fn begin_cycle(&mut self, alloc: Global)
        ensures { self.new ≡ record self.old { cycle = Some [] } }
    {
        self.cycle = Some(Run::new(alloc));
    }

    // Adds a step at the end.
    fn push_step(&mut self, flips: &[u32]) -> Result<(), Memory>
        ensures { OnOk result (self.new ≡ with_step self.old flips.now) }
    {
        match &mut self.cycle {
            Some(cycle) => push_step(cycle, flips),
            None => push_step(&mut self.lead, flips),
        }
    }
}

// Adds a step to a run.
fn push_step(run: &mut Run, flips: &[u32]) -> Result<(), Memory>
    ensures { OnOk result (run.new.steps ≡ run.old.steps ++ flips.now ∷ []) }
{
    run.reserve(flips.len(), 1)?;
    run.push_step(flips);
    Ok(())
}

/// Runs of which the last one may go on.
#[derive(Debug, Drop)]
pub(crate) struct RunBuilder {
    over: ToldRuns,
    open: Option<OpenRun>,
}

impl Model for RunBuilder {
    ghost use Rattle.std.specs.Prelude.{List};
    ghost use Rattle.hz_text.specs.RunParts.{RunOf};

    ghost Value = { List RunOf };

    ghost use Rattle.hz_run_text.specs.RunInside.{built_of_fields, HoldsBuilt};

    ghost view = { built_of_fields };

    ghost invariant = { HoldsBuilt };
}

impl RunBuilder {
    // No run.
    pub(crate) fn new(alloc: Global) -> Result<RunBuilder, Memory>
        ensures { IfOk result (λ runs. runs ≡ []) }
    {
        Ok(RunBuilder {
            over: ToldRuns::new(alloc)?,
            open: None,
        })
    }

    // Begins a run.
    pub(crate) fn begin_run(&mut self, alloc: Global) -> Result<(), Memory>
        ensures { OnOk result (IsRunAdded self.old RunLine self.new) }
    {
        let next = Some(OpenRun::new(alloc));
        if let Some(run) = mem::replace(&mut self.open, next) {
            self.over.push(run.lead, run.cycle)?;
        }
        Ok(())
    }

    // Begins the cycle of the last run.
    pub(crate) fn begin_cycle(&mut self, alloc: Global)
        requires follows { IsSome (place_after (last_place self.old) Cycle) }
        ensures { IsRunAdded self.old Cycle self.new }
    {
        let Some(run) = &mut self.open else {
            unreachable!();
        };
        run.begin_cycle(alloc);
    }

    // Adds a step to the last run.
    pub(crate) fn push_step(&mut self, flips: &[u32]) -> Result<(), Memory>
        requires follows { IsSome (place_after (last_place self.old) (step_of flips.now)) }
        ensures { OnOk result (IsRunAdded self.old (step_of flips.now) self.new) }
    {
        let Some(run) = &mut self.open else {
            unreachable!();
        };
        run.push_step(flips)
    }

    // The runs.
    pub(crate) fn finish(self) -> Result<ToldRuns, Memory>
        ensures { IfOk result (λ runs. runs ≡ self) }
    {
        let RunBuilder { mut over, open } = self;
        if let Some(run) = open {
            over.push(run.lead, run.cycle)?;
        }
        Ok(over)
    }
}
