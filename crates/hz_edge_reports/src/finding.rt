//! What is found of a change.
ghost use Rattle.std.specs.Prelude.{◌≡◌, Bool, List, [], OnOk, length};
ghost use Rattle.hz_core.specs.Ternary.{Refines};
ghost use Rattle.hz_net.specs.Network.{network_of};
ghost use Rattle.hz_net.specs.Starts.{IsStableStart};
ghost use Rattle.hz_edges.specs.Room.{edges_of};
ghost use Rattle.hz_orders.specs.Inductive.{IsInductiveUnder};
ghost use Rattle.hz_edge_reports.specs.OrderedEdges.{AreEdgesUnder};
ghost use Rattle.hz_edge_reports.specs.EdgeChanges.{AreRightUnder, IsRightChange};
ghost use Rattle.hz_edge_reports.specs.Room.{CanBeMade, IsChangeRoom, change_of};
ghost use Rattle.hz_edge_reports.specs.Passed.{AreToldIfUsed, HavePassed, RestsFor};

use crate::room::ChangeRoom;
use hz_core::{Memory, Tri};
use hz_free::Free;
use hz_net::Net;
use hz_orders::{OrderedChange, ends_under, kept_run, ordered_covers};
use hz_reach::{Change, a_is_exact, b_is_exact};
use hz_run_text::printed_runs_are_read;
use hz_timing::Assumption;
use std::alloc::Global;

/// What all changes that are made have in common. Changes can be made if it fits (`CanBeMade`).
#[derive(Clone, Copy)]
pub struct Making<'a> {
    /// Where memory comes from.
    pub alloc: Global,
    /// The network.
    pub net: &'a Net,
    /// Its feedback-free part.
    pub free: &'a Free,
    /// The assumptions of time.
    pub assumptions: &'a [Assumption],
    /// The most changes of a transient that are counted.
    pub cap: u64,
}

impl ChangeRoom {
    /// Finds what comes of a change from the start to the input. If memory runs out, nothing is known of what was found.
    pub fn find(&mut self, making: &Making) -> Result<(), Memory>
        requires making { CanBeMade making.now }
        requires room { IsChangeRoom making.now.net.now self.old }
        requires start { IsStableStart making.now.net.now self.old.start.items }
        ensures right { OnOk result (IsRightChange making.now.net.now making.now.cap
            making.now.assumptions.now (change_of self.new)) }
        ensures start { self.new.start ≡ self.old.start }
        ensures input { self.new.input ≡ self.old.input }
        ensures room { IsChangeRoom making.now.net.now self.new }
    {
        // The laws say that both results are exact, and that the run is printed as a text that replays.
        a_is_exact();
        b_is_exact();
        printed_runs_are_read();
        let change = Change {
            net: making.net,
            start: self.start.as_slice(),
            input: self.input.as_slice(),
        };
        self.edges.make_passes(&change);
        self.use_orders(making)?;
        self.find_edges(making)
    }

    // Finds the edges of a change under the orders that it uses.
    fn find_edges(&mut self, making: &Making) -> Result<(), Memory>
        requires making { CanBeMade making.now }
        requires room { IsChangeRoom making.now.net.now self.old }
        requires passed { HavePassed making.now.net.now self.old }
        requires told { AreToldIfUsed making.now.net.now making.now.cap self.old }
        ensures right { OnOk result (AreRightUnder self.old.used.items
            (network_of making.now.net.now) making.now.cap (change_of self.new)) }
        ensures told { (self.old.used.items ≡ [] → ⊥) → self.new.edges.told ≡ self.old.edges.told }
        ensures rests { RestsFor self.old self.new }
        ensures room { IsChangeRoom making.now.net.now self.new }
    {
        if self.used.is_empty() {
            return self.find_free(making);
        }
        self.find_ordered(making)
    }

    // Finds the edges of a change that uses no order. Each variable comes to what Algorithm B says.
    fn find_free(&mut self, making: &Making) -> Result<(), Memory>
        requires making { CanBeMade making.now }
        requires room { IsChangeRoom making.now.net.now self.old }
        requires passed { HavePassed making.now.net.now self.old }
        ensures right { OnOk result (AreRightUnder [] (network_of making.now.net.now)
            making.now.cap (change_of self.new)) }
        ensures rests { RestsFor self.old self.new }
        ensures room { IsChangeRoom making.now.net.now self.new }
    {
        let change = Change {
            net: making.net,
            start: self.start.as_slice(),
            input: self.input.as_slice(),
        };
        self.edges
            .find_edges(making.alloc, &change, making.free, making.cap)?;
        self.ends.copy_from_slice(self.edges.b.as_slice());
        self.kept = false;
        Ok(())
    }

    // Finds the edges of a change under its orders, by what is told under them.
    fn find_ordered(&mut self, making: &Making) -> Result<(), Memory>
        requires making { CanBeMade making.now }
        requires room { IsChangeRoom making.now.net.now self.old }
        requires passed { HavePassed making.now.net.now self.old }
        requires told { IsInductiveUnder self.old.used.items (network_of making.now.net.now)
            self.old.input.items self.old.start.items making.now.cap self.old.edges.told.items }
        ensures right { OnOk result (AreEdgesUnder self.old.used.items
            (network_of making.now.net.now) self.new.input.items self.new.start.items
            self.new.ends.items self.new.kept (edges_of self.new.edges)) }
        ensures told { self.new.edges.told ≡ self.old.edges.told }
        ensures rests { RestsFor self.old self.new }
        ensures room { IsChangeRoom making.now.net.now self.new }
    {
        // The law says what words that are inductive under orders bound.
        ordered_covers();
        let change = OrderedChange {
            net: making.net,
            start: self.start.as_slice(),
            input: self.input.as_slice(),
            orders: self.used.as_slice(),
            held: &[],
            cap: making.cap,
        };
        let ends = ends_under(making.alloc, &change, self.edges.told.as_slice())?;
        write_ends(ends.as_slice(), self.ends.as_mut_slice());
        self.kept = kept_run(
            making.alloc,
            &change,
            &mut self.edges.run,
            self.edges.counts.as_mut_slice(),
        )?;
        Ok(())
    }
}

// Writes what variables come to. Only if there is a value for each variable, some state refines the values.
fn write_ends(found: &[Tri], ends: &mut [Tri])
    ensures { (state : List Bool) → length state ≡ length ends.old → Refines state found.now →
        Refines state ends.new }
{
    if found.len() != ends.len() {
        return;
    }
    ends.copy_from_slice(found);
}
