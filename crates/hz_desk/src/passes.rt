//! Both passes, and what they leave for the runs.
ghost use Rattle.std.specs.Prelude.{◌≡◌, ◌<◌, IfOk};
ghost use Rattle.hz_net.specs.Network.{IsState, IsInput};
ghost use Rattle.hz_net.specs.Starts.{IsStableStart};
ghost use Rattle.hz_desk.specs.ResultsOfPasses.{ArePassResults, HavePassRoom};

use hz_core::{Memory, Tri};
use hz_lists::Steps;
use hz_net::Net;
use hz_pass::{Front, settle, spread_stable};
use hz_reach::Change;
use std::alloc::Global;
use std::marker::Brand;
use std::sync::ledger::{Blank, Ledger};

/// The ranks and the settling rounds that both passes leave of a change, and the memory that a pass takes.
#[derive(Drop)]
pub struct Passes {
    /// The round of Algorithm A that made each variable X, 0 for one that it keeps.
    pub ranks: Vec<u32>,
    /// The round of Algorithm B in which each variable settles, 0 for one that was not X or stays X.
    pub when: Vec<u32>,
    pub work: Vec<Tri>,
    pub front: Front,
}

/// The rounds of Algorithms A and B.
#[derive(Clone, Copy)]
pub struct Rounds {
    /// Those of Algorithm A, the last one included, which changes nothing.
    pub a: u32,
    /// Those of Algorithm B, the last one included.
    pub b: u32,
}

impl Passes {
    /// Memory for the passes over a network.
    pub fn new(alloc: Global, net: &Net) -> Result<Passes, Memory>
        ensures { IfOk result (HavePassRoom net.now) }
    {
        let variables = net.len() as usize;
        Ok(Passes {
            ranks: vec![in alloc; 0; variables]?,
            when: vec![in alloc; 0; variables]?,
            work: vec![in alloc; Tri::Unknown; variables]?,
            front: Front::new(alloc, net)?,
        })
    }

    /// Runs both passes of a change from a start that is stable under its own inputs, and writes their results into `a` and `b`. It takes no
    /// memory.
    pub fn make(&mut self, change: &Change, a: &mut [Tri], b: &mut [Tri]) -> Rounds
        requires start { IsStableStart change.now.net.now change.now.start.now }
        requires input { IsInput change.now.net.now change.now.input.now }
        requires room { HavePassRoom change.now.net.now self.old }
        requires a { IsState change.now.net.now a.old }
        requires b { IsState change.now.net.now b.old }
        ensures passed { ArePassResults change.now.net.now change.now.input.now change.now.start.now
            a.new self.new.ranks.items b.new self.new.when.items result.a result.b }
        ensures room { HavePassRoom change.now.net.now self.new }
    {
        self.make_counted::<Brand>(change, a, b, Blank::new(1))
    }

    // The same. It counts the evaluations in a ledger of its own.
    fn make_counted<L: Ledger>(
        &mut self,
        change: &Change,
        a: &mut [Tri],
        b: &mut [Tri],
        ledger: Blank,
    ) -> Rounds
        requires start { IsStableStart change.now.net.now change.now.start.now }
        requires input { IsInput change.now.net.now change.now.input.now }
        requires room { HavePassRoom change.now.net.now self.old }
        requires a { IsState change.now.net.now a.old }
        requires b { IsState change.now.net.now b.old }
        requires name { ledger.name ≡ L.name }
        requires parts { ledger.parts ≡ L.parts }
        requires some { 0 < ledger.parts }
        ensures passed { ArePassResults change.now.net.now change.now.input.now change.now.start.now
            a.new self.new.ranks.items b.new self.new.when.items result.a result.b }
        ensures room { HavePassRoom change.now.net.now self.new }
    {
        let (book, share) = ledger.open::<L>();
        let mut steps = Steps::new(book, share);
        let rounds_a = spread_stable(
            change.net,
            change.input,
            change.start,
            a,
            self.ranks.as_mut_slice(),
            self.work.as_mut_slice(),
            &mut self.front,
            &mut steps,
        );
        b.copy_from_slice(a);
        let rounds_b = settle(
            change.net,
            change.input,
            b,
            self.when.as_mut_slice(),
            self.work.as_mut_slice(),
            &mut self.front,
            &mut steps,
        );
        Rounds {
            a: rounds_a,
            b: rounds_b,
        }
    }
}
