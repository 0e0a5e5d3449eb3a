//! The search.
ghost use Rattle.std.specs.Prelude.{◌≡◌, ◌<◌, ◌++◌, ℕ, [], length, take, slice_index_or, Contains, IfOk, All, min};
ghost use Rattle.std.specs.List.{range_with_len};
ghost use Rattle.hz_core.specs.declared.tri.Tri.TheVariants.{Unknown};
ghost use Rattle.hz_net.specs.Network.{network_of, IsState, IsInput, IsVariable};
ghost use Rattle.hz_net.specs.Starts.{IsStableStart};
ghost use Rattle.hz_desk.specs.Finding.{finding_of, values_b};
ghost use Rattle.hz_desk.specs.RightFinding.{IsRightFinding};
ghost use Rattle.hz_lists.specs.Listed.{IsRepeatFree};
ghost use Rattle.hz_split.specs.Attempts.{runs_found, outcome_of, most_fronts};
ghost use Rattle.hz_split.specs.FoundRuns.{HasRoomFor, with_attempt, with_attempts};
ghost use Rattle.hz_split.specs.Splits.{AreSettledRuns};

use crate::flips::{make_run, make_step};
use crate::found::Found;
use crate::outcome::Outcome;
use crate::pick::Pick;
use crate::trial::Trial;
use hz_core::Memory;
use hz_desk::Finding;
use hz_gmw::Run;
use hz_net::Net;
use hz_reach::run_counts;
use std::alloc::Global;
use std::marker::Model;

/// The most states of a cycle from which attempts go.
const MAX_FRONTS: usize = 64;

/// All the room that searches on one network take, and the runs that the last one found.
///
/// A search makes at most 128 attempts, each of at most two turns for each variable. A turn costs the variables that read the one
/// that flips, and the pins of the gates among them. Only `new` takes memory.
#[derive(Debug, Drop)]
pub struct Split<'n> {
    trial: Trial<'n>,
    // The state from which attempts go.
    here: Vec<bool>,
    found: Found,
}

impl<'n> Model for Split<'n> {
    ghost use Rattle.hz_split.specs.Splits.{SplitOf};

    ghost Value = { SplitOf };

    ghost use Rattle.hz_split.specs.InsideSplit.{split_of, HoldsSplit};

    ghost view = { split_of };

    ghost invariant = { HoldsSplit };
}

impl<'n> Split<'n> {
    /// Room for searches on a network. No run is found.
    pub fn new(alloc: Global, net: &'n Net) -> Result<Split<'n>, Memory>
        ensures { IfOk result (λ split. split ≡ record { netlist = net.now; found = [] }) }
    {
        Ok(Split {
            trial: Trial::new(alloc, net)?,
            here: vec![in alloc; false; net.len() as usize]?,
            found: Found::new(alloc, net.len())?,
        })
    }

    /// Looks for two runs of a change that end in different stable states. The change leaves a variable unsettled, and the finding
    /// is that of the change, from this start.
    ///
    /// Attempts go from the first 64 states of the finding's cycle. From each state there are two. In one the least unstable variable
    /// flips in each turn, in the other the greatest. The search takes no memory.
    pub fn search(&mut self, start: &[bool], finding: &Finding) -> Outcome
        requires start { IsStableStart self.old.netlist start.now }
        requires input { IsInput self.old.netlist finding.now.input }
        requires right { (cap : ℕ)
            × IsRightFinding (network_of self.old.netlist) finding.now.input start.now cap
            (finding_of finding.now) }
        requires unsettled { Contains (values_b finding.now.rows) Unknown }
        ensures netlist { self.new.netlist ≡ self.old.netlist }
        ensures found { self.new.found
            ≡ runs_found (network_of self.old.netlist) start.now (finding_of finding.now) }
        ensures outcome { result ≡ outcome_of self.new.found }
        ensures runs { AreSettledRuns (network_of self.old.netlist) finding.now.input start.now
            self.new.found }
    {
        // The law says that a run has no more steps than flips.
        run_counts();
        self.found.clear();
        self.here.as_mut_slice().copy_from_slice(start);
        make_run(self.here.as_mut_slice(), &finding.settle);
        attempt_all(
            &mut self.trial,
            finding,
            self.here.as_mut_slice(),
            &mut self.found,
        );
        self.outcome()
    }

    /// How many runs were found.
    pub fn found(&self) -> usize
        ensures { result ≡ length self.now.found }
    {
        self.found.count()
    }

    /// A run that was found, counted from 0.
    pub fn run(&self, number: usize) -> &Run
        requires { number < length self.now.found }
        ensures { result.now.steps ≡ slice_index_or self.now.found number [] }
    {
        self.found.run(number)
    }

    // What the search found.
    fn outcome(&self) -> Outcome
        ensures { result ≡ outcome_of self.now.found }
    {
        match self.found.count() {
            0 => Outcome::Nowhere,
            1 => Outcome::OneState,
            _ => Outcome::Critical,
        }
    }
}

// Makes an attempt from the state to which the settle run and the first steps of the cycle lead. Adds its run, if it stops at a stable
// state.
fn attempt(
    trial: &mut Trial<'_>,
    finding: &Finding,
    here: &[bool],
    front: usize,
    pick: Pick,
    found: &mut Found,
)
    requires input { IsInput trial.old.circuit finding.now.input }
    requires here { IsState trial.old.circuit here.now }
    requires variables { found.old.variables ≡ length (network_of trial.old.circuit) }
    requires room { HasRoomFor (length (network_of trial.old.circuit)) finding.now.settle.steps
        finding.now.cycle.steps front [] }
    ensures circuit { trial.new.circuit ≡ trial.old.circuit }
    ensures found { found.new
        ≡ with_attempt (network_of trial.old.circuit) finding.now.input pick
        (finding.now.settle.steps ++ take front finding.now.cycle.steps) here.now found.old }
{
    if trial.make(finding.input.as_slice(), here, pick) {
        found.add(
            &finding.settle,
            &finding.cycle,
            front,
            trial.turns(),
            trial.state(),
        );
    }
}

// Makes two attempts from each of the first states of the cycle, the first of which is here, until two runs are found.
fn attempt_all(trial: &mut Trial<'_>, finding: &Finding, here: &mut [bool], found: &mut Found)
    requires input { IsInput trial.old.circuit finding.now.input }
    requires here { IsState trial.old.circuit here.old }
    requires variables { found.old.variables ≡ length (network_of trial.old.circuit) }
    requires room { HasRoomFor (length (network_of trial.old.circuit)) finding.now.settle.steps
        finding.now.cycle.steps 0 [] }
    requires inside { All (All (IsVariable trial.old.circuit)) finding.now.cycle.steps }
    requires once { All IsRepeatFree finding.now.cycle.steps }
    ensures circuit { trial.new.circuit ≡ trial.old.circuit }
    ensures found { found.new
        ≡ with_attempts (network_of trial.old.circuit) finding.now.input finding.now.settle.steps
        finding.now.cycle.steps
        (range_with_len 0 (min (length finding.now.cycle.steps) most_fronts)) here.old
        found.old }
{
    let fronts = finding.cycle.steps().min(MAX_FRONTS);
    for front in 0..fronts {
        attempt(trial, finding, here, front, Pick::Least, found);
        attempt(trial, finding, here, front, Pick::Greatest, found);
        if found.count() == 2 {
            return;
        }
        make_step(here, finding.cycle.step(front));
    }
}
