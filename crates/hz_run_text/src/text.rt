//! Run texts: a start, an input, and runs.

ghost use Rattle.std.specs.Prelude.{◌≡◌, ◌<◌, ◌++◌, ◌∷◌, [], length, slice_index_or, None, IfOk, OnOk, OnErr};
ghost use Rattle.std.specs.Option.{option_map};

use crate::told::ToldRuns;
use hz_core::Memory;
use hz_gmw::Run;
use std::alloc::Global;
use std::marker::Model;

/// A run text of a network: the bit of each node at the start, the input under which the runs stand, and the runs. Each run
/// begins at the start, in which each wire has its source's value, and need not begin at a stable state.
#[derive(Debug, Drop)]
pub struct RunText {
    nodes: Vec<bool>,
    input: Vec<bool>,
    runs: ToldRuns,
}

impl Model for RunText {
    ghost use Rattle.hz_run_text.specs.RunValue.{RunTextOf};

    ghost Value = { RunTextOf };

    ghost view = { λ inside. record {
      nodes = inside.nodes.items;
      input = inside.input.items;
      runs = inside.runs;
    } };
}

impl RunText {
    /// A run text without runs: the bits of the nodes, in their order, and those of the inputs.
    pub fn new(alloc: Global, nodes: &[bool], input: &[bool]) -> Result<RunText, Memory>
        ensures { IfOk result
            (λ text. text ≡ record { nodes = nodes.now; input = input.now; runs = [] }) }
    {
        let nodes = Vec::from_slice(alloc, nodes)?;
        let input = Vec::from_slice(alloc, input)?;
        let runs = ToldRuns::new(alloc)?;
        Ok(RunText::of(nodes, input, runs))
    }

    // A run text of these parts.
    pub(crate) fn of(nodes: Vec<bool>, input: Vec<bool>, runs: ToldRuns) -> RunText
        ensures { result ≡ record { nodes = nodes.items; input = input.items; runs = runs } }
    {
        RunText { nodes, input, runs }
    }

    /// Adds a run after the last one. It takes both parts; if memory runs out they are dropped.
    pub fn add_run(&mut self, lead: Run, cycle: Option<Run>) -> Result<(), Memory>
        ensures ok { OnOk result
            (self.new ≡ record self.old {
              runs = self.old.runs
                  ++ record { lead = lead.steps; cycle = option_map (λ run. run.steps) cycle } ∷ [];
            }) }
        ensures err { OnErr result (self.new ≡ self.old) }
    {
        self.runs.push(lead, cycle)
    }

    /// The bit of each node at the start, in the order of the nodes.
    pub fn nodes(&self) -> &[bool]
        ensures { result.now ≡ self.now.nodes }
    {
        self.nodes.as_slice()
    }

    /// The bit of each input, under which the runs stand.
    pub fn input(&self) -> &[bool]
        ensures { result.now ≡ self.now.input }
    {
        self.input.as_slice()
    }

    /// The number of runs.
    pub fn runs(&self) -> usize
        ensures { result ≡ length self.now.runs }
    {
        self.runs.len()
    }

    /// The steps of a run up to its cycle. Runs are numbered from 0.
    pub fn lead(&self, number: usize) -> &Run
        requires { number < length self.now.runs }
        ensures { result.now.steps ≡
            (slice_index_or self.now.runs number (record { lead = []; cycle = None })).lead }
    {
        self.runs.lead(number)
    }

    /// The steps of a run's cycle, if it has one.
    pub fn cycle(&self, number: usize) -> Option<&Run>
        requires { number < length self.now.runs }
        ensures { option_map (λ run. run.now.steps) result ≡
            (slice_index_or self.now.runs number (record { lead = []; cycle = None })).cycle }
    {
        self.runs.cycle(number)
    }
}
