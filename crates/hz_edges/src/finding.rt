//! What is found of a change beside its finding, and the memory that this takes.
ghost use Rattle.std.specs.Prelude.{◌≡◌, ◌<◌, ◌≤◌, length, IfOk, OnOk};
ghost use Rattle.hz_net.specs.Network.{network_of, IsInput};
ghost use Rattle.hz_net.specs.Starts.{IsStableStart};
ghost use Rattle.hz_word.specs.Capped.{greatest_cap};
ghost use Rattle.hz_free.specs.FreePart.{IsFreePart};
ghost use Rattle.hz_core.specs.Netlist.{IsCircuit};
ghost use Rattle.hz_reach.specs.Cycles.{AreResultsOfBoth};
ghost use Rattle.hz_free.specs.Inductive.{AreFreeWords, IsInductive};
ghost use Rattle.hz_bounds.specs.Telling.{AreStill};
ghost use Rattle.hz_witness.specs.Witness.{IsWitness};
ghost use Rattle.hz_edges.specs.Edges.{AreEdgesOfChange, range_at};
ghost use Rattle.hz_edges.specs.Room.{edges_of, IsEdgeRoom};

use hz_bounds::{Range, range_of, tell};
use hz_core::{Memory, Tri};
use hz_desk::Passes;
use hz_free::Free;
use hz_gmw::Run;
use hz_net::Net;
use hz_reach::{Change, Results};
use hz_witness::witness_run;
use hz_word::{Count, Word};
use std::alloc::Global;

/// What is found of a change: what each variable is told, one run, and its counts; and what they are found with.
#[derive(Drop)]
pub struct EdgeRoom {
    /// What each variable is told of its changes.
    pub told: Vec<Word>,
    /// One run of the change.
    pub run: Run,
    /// How often the run changes each variable.
    pub counts: Vec<u32>,
    /// The ranks and the settling rounds.
    pub passes: Passes,
    /// The result of Algorithm A.
    pub a: Vec<Tri>,
    /// The result of Algorithm B.
    pub b: Vec<Tri>,
}

impl EdgeRoom {
    /// Room for the changes of a network.
    pub fn new(alloc: Global, net: &Net) -> Result<EdgeRoom, Memory>
        ensures { IfOk result (IsEdgeRoom net.now) }
    {
        net.keeps_shape();
        let variables = net.len() as usize;
        let still = Word {
            first: false,
            changes: Count::Exact(0),
        };
        Ok(EdgeRoom {
            told: vec![in alloc; still; variables]?,
            run: Run::new(alloc),
            counts: vec![in alloc; 0; variables]?,
            passes: Passes::new(alloc, net)?,
            a: vec![in alloc; Tri::Zero; variables]?,
            b: vec![in alloc; Tri::Zero; variables]?,
        })
    }

    /// How often a variable changes, along the run and along every run.
    pub fn range(&self, var: u32) -> Range
        requires told { var < length self.now.told.items }
        requires counts { var < length self.now.counts.items }
        ensures { result ≡ range_at (edges_of self.now) var }
    {
        range_of(self.told[var as usize].changes, self.counts[var as usize])
    }

    /// Makes both passes of a change, and keeps their results. It takes no memory.
    pub fn make_passes(&mut self, change: &Change)
        requires room { IsEdgeRoom change.now.net.now self.old }
        requires start { IsStableStart change.now.net.now change.now.start.now }
        requires input { IsInput change.now.net.now change.now.input.now }
        ensures results { AreResultsOfBoth change.now.net.now change.now.start.now
            change.now.input.now self.new.a.items self.new.passes.ranks.items self.new.b.items
            self.new.passes.when.items }
        ensures room { IsEdgeRoom change.now.net.now self.new }
    {
        self.passes
            .make(change, self.a.as_mut_slice(), self.b.as_mut_slice());
    }

    /// Finds how often the variables change in a change whose passes were made last.
    pub fn find_edges(
        &mut self,
        alloc: Global,
        change: &Change,
        free: &Free,
        cap: u64,
    ) -> Result<(), Memory>
        requires room { IsEdgeRoom change.now.net.now self.old }
        requires free { IsFreePart change.now.net.now free.now }
        requires results { AreResultsOfBoth change.now.net.now change.now.start.now
            change.now.input.now self.old.a.items self.old.passes.ranks.items self.old.b.items
            self.old.passes.when.items }
        requires cap_low { 1 ≤ cap }
        requires cap_high { cap ≤ greatest_cap }
        ensures found { OnOk result
            (AreEdgesOfChange (network_of change.now.net.now) cap change.now.input.now
            change.now.start.now self.old.a.items self.old.b.items (edges_of self.new)) }
        ensures a { self.new.a ≡ self.old.a }
        ensures b { self.new.b ≡ self.old.b }
        ensures room { IsEdgeRoom change.now.net.now self.new }
    {
        change.net.keeps_shape();
        self.find_by_passes(alloc, change, free, cap)
    }

    // The same. It says what is told and what the run is.
    fn find_by_passes(
        &mut self,
        alloc: Global,
        change: &Change,
        free: &Free,
        cap: u64,
    ) -> Result<(), Memory>
        requires circuit { IsCircuit change.now.net.now }
        requires room { IsEdgeRoom change.now.net.now self.old }
        requires free { IsFreePart change.now.net.now free.now }
        requires results { AreResultsOfBoth change.now.net.now change.now.start.now
            change.now.input.now self.old.a.items self.old.passes.ranks.items self.old.b.items
            self.old.passes.when.items }
        requires cap_low { 1 ≤ cap }
        requires cap_high { cap ≤ greatest_cap }
        ensures inductive { OnOk result (IsInductive (network_of change.now.net.now)
            change.now.input.now change.now.start.now cap self.new.told.items) }
        ensures free { OnOk result (AreFreeWords (network_of change.now.net.now)
            change.now.input.now change.now.start.now cap self.new.told.items) }
        ensures still { OnOk result (AreStill (network_of change.now.net.now) change.now.start.now
            self.old.a.items self.new.told.items) }
        ensures witness { OnOk result (IsWitness (network_of change.now.net.now)
            change.now.input.now change.now.start.now self.old.a.items self.old.b.items
            self.new.run.steps self.new.counts.items) }
        ensures a { self.new.a ≡ self.old.a }
        ensures b { self.new.b ≡ self.old.b }
        ensures room { IsEdgeRoom change.now.net.now self.new }
    {
        tell(
            alloc,
            change.net,
            free,
            change.start,
            change.input,
            self.a.as_slice(),
            cap,
            self.told.as_mut_slice(),
        )?;
        let results = Results {
            a: self.a.as_slice(),
            ranks: self.passes.ranks.as_slice(),
            b: self.b.as_slice(),
            when: self.passes.when.as_slice(),
        };
        witness_run(
            alloc,
            change,
            &results,
            &mut self.run,
            self.counts.as_mut_slice(),
        )
    }
}
