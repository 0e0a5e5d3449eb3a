//! The room that an analysis takes, and the analysis in it.
ghost use Rattle.std.specs.Prelude.{◌≤◌, IfOk};
ghost use Rattle.hz_net.specs.Network.{network_of, AreByVariable, IsInput};
ghost use Rattle.hz_net.specs.Starts.{IsStableStart};
ghost use Rattle.hz_desk.specs.Finding.{finding_of, values_a, values_b};
ghost use Rattle.hz_desk.specs.RightFinding.{IsRightFinding};
ghost use Rattle.hz_free.specs.FreePart.{IsFreePart};
ghost use Rattle.hz_desk.specs.ResultsOfPasses.{ArePassResults, HavePassRoom};
ghost use Rattle.hz_desk.specs.Filled.{AreRowsOfChange, FilledIsRight};
ghost use Rattle.hz_desk.specs.RoomFor.{IsRoomFor};
ghost use Rattle.hz_word.specs.Capped.{greatest_cap};

use crate::finding::{Finding, Rows};
use crate::passes::{Passes, Rounds};
use crate::races::count_races;
use crate::runs::make_runs;
use hz_core::Memory;
use hz_free::{Free, words_change, words_cover};
use hz_gmw::{Follower, a_covers, b_covers};
use hz_net::Net;
use hz_reach::{Change, Results, Scratch, a_is_exact, runs_show_b};
use std::alloc::Global;

/// What an analysis works with, and the finding that it fills.
#[derive(Drop)]
pub(crate) struct Room<'n> {
    pub free: Free,
    pub passes: Passes,
    pub scratch: Scratch,
    pub follower: Follower<'n>,
    pub finding: Finding,
}

impl<'n> Room<'n> {
    // The room that analyses on a network take.
    pub(crate) fn new(alloc: Global, net: &'n Net) -> Result<Room<'n>, Memory>
        ensures { IfOk result (IsRoomFor net.now) }
    {
        let free = Free::build(alloc, net)?;
        let passes = Passes::new(alloc, net)?;
        let scratch = Scratch::new(alloc, net)?;
        let follower = Follower::new(alloc, net)?;
        let finding = Finding::with_room(alloc, net.len(), net.circuit().inputs())?;
        Ok(Room {
            free,
            passes,
            scratch,
            follower,
            finding,
        })
    }

    // Analyses one change of the network for which the room was made.
    pub(crate) fn analyse(&mut self, net: &Net, start: &[bool], input: &[bool], cap: u64)
        requires room { IsRoomFor net.now self.old }
        requires start { IsStableStart net.now start.now }
        requires input { IsInput net.now input.now }
        requires cap_low { 1 ≤ cap }
        requires cap_high { cap ≤ greatest_cap }
        ensures right { IsRightFinding (network_of net.now) input.now start.now cap
            (finding_of self.new.finding) }
        ensures room { IsRoomFor net.now self.new }
    {
        net.keeps_shape();
        filled_is_right();
        let change = Change { net, start, input };
        let rounds = fill_rows(
            &change,
            &self.free,
            cap,
            &mut self.passes,
            &mut self.finding.rows,
        );
        self.finding.rounds_a = rounds.a;
        self.finding.rounds_b = rounds.b;
        self.finding.input.write(input);
        let results = Results {
            a: self.finding.rows.values_a(),
            ranks: self.passes.ranks.as_slice(),
            b: self.finding.rows.values_b(),
            when: self.passes.when.as_slice(),
        };
        let common = make_runs(
            &change,
            &results,
            &mut self.scratch,
            &mut self.finding.spread,
            &mut self.finding.settle,
            &mut self.finding.cycle,
        );
        let races = count_races(
            &mut self.follower,
            &change,
            &self.finding.spread,
            &self.finding.settle,
            &self.finding.cycle,
            common,
        );
        self.finding.spread_races = races.spread;
        self.finding.settle_races = races.settle;
        self.finding.cycle_races = races.cycle;
    }
}

// Writes what the rows are made of: the start, the results of both passes and the words.
fn fill_rows(change: &Change, free: &Free, cap: u64, passes: &mut Passes, rows: &mut Rows) -> Rounds
    requires free { IsFreePart change.now.net.now free.now }
    requires start { IsStableStart change.now.net.now change.now.start.now }
    requires input { IsInput change.now.net.now change.now.input.now }
    requires cap_low { 1 ≤ cap }
    requires cap_high { cap ≤ greatest_cap }
    requires passes { HavePassRoom change.now.net.now passes.old }
    requires rows { AreByVariable change.now.net.now rows.old }
    ensures passed { ArePassResults change.now.net.now change.now.input.now change.now.start.now (values_a rows.new)
        passes.new.ranks.items (values_b rows.new) passes.new.when.items result.a
        result.b }
    ensures passes { HavePassRoom change.now.net.now passes.new }
    ensures rows { AreRowsOfChange (network_of change.now.net.now) change.now.input.now change.now.start.now cap rows.new }
{
    // The law says which words have a change.
    change.net.keeps_shape();
    words_change();
    rows.start.as_mut_slice().copy_from_slice(change.start);
    let rounds = passes.make(change, rows.a.as_mut_slice(), rows.b.as_mut_slice());
    free.words_given_a(
        change.net,
        change.start,
        change.input,
        cap,
        rows.a.as_slice(),
        rows.words.as_mut_slice(),
    );
    rounds
}

// The laws of both algorithms and of words, for a finding that is filled.
pub(crate) fn filled_is_right()
    ensures { FilledIsRight }
{
    a_covers();
    b_covers();
    a_is_exact();
    runs_show_b();
    words_cover();
}
