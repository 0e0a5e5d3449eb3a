//! The words that are told of a change, and the orders that it uses.
ghost use Rattle.std.specs.Prelude.{◌≡◌, List, OnOk};
ghost use Rattle.hz_net.specs.Network.{network_of};
ghost use Rattle.hz_orders.specs.declared.order.Order.{Order};
ghost use Rattle.hz_orders.specs.Inductive.{IsInductiveUnder};
ghost use Rattle.hz_orders.specs.Tabled.{AreTabled};
ghost use Rattle.hz_edge_reports.specs.UsedOrders.{AreFound, AreUsed};
ghost use Rattle.hz_edge_reports.specs.Room.{CanBeMade, IsChangeRoom};
ghost use Rattle.hz_edge_reports.specs.Passed.{AreToldFree, AreToldIfUsed, HavePassed, PassesRest};

use crate::finding::Making;
use crate::room::ChangeRoom;
use crate::using::{Known, find_orders};
use hz_bounds::{tell, words_are_told};
use hz_core::Memory;
use hz_orders::{OrderedChange, inductive_under_orders, tell_under, with_tables};

impl ChangeRoom {
    /// Finds the orders that the change uses. If there is one, words that are inductive under them are told.
    pub(crate) fn use_orders(&mut self, making: &Making) -> Result<(), Memory>
        requires making { CanBeMade making.now }
        requires room { IsChangeRoom making.now.net.now self.old }
        requires passed { HavePassed making.now.net.now self.old }
        ensures used { OnOk result (AreUsed (network_of making.now.net.now) self.old.input.items
            self.old.start.items making.now.cap making.now.assumptions.now
            self.new.edges.told.items self.new.used.items self.new.idle) }
        ensures told { OnOk result (AreToldIfUsed making.now.net.now making.now.cap self.new) }
        ensures passes { PassesRest self.old self.new }
        ensures room { IsChangeRoom making.now.net.now self.new }
    {
        // The laws say that there are inductive words, which without orders are not told here.
        words_are_told();
        inductive_under_orders();
        if making.assumptions.is_empty() {
            self.used.clear();
            self.idle = 0;
            return Ok(());
        }
        self.tell_free(making)?;
        self.use_assumptions(making)?;
        self.leave_out(making)
    }

    // Tells words without orders.
    fn tell_free(&mut self, making: &Making) -> Result<(), Memory>
        requires making { CanBeMade making.now }
        requires room { IsChangeRoom making.now.net.now self.old }
        requires passed { HavePassed making.now.net.now self.old }
        ensures told { OnOk result (AreToldFree making.now.net.now making.now.cap self.new) }
        ensures passes { PassesRest self.old self.new }
        ensures room { IsChangeRoom making.now.net.now self.new }
    {
        tell(
            making.alloc,
            making.net,
            making.free,
            self.start.as_slice(),
            self.input.as_slice(),
            self.edges.a.as_slice(),
            making.cap,
            self.edges.told.as_mut_slice(),
        )
    }

    // Finds the orders of the assumptions, by what is told without orders.
    fn use_assumptions(&mut self, making: &Making) -> Result<(), Memory>
        requires making { CanBeMade making.now }
        requires room { IsChangeRoom making.now.net.now self.old }
        requires passed { HavePassed making.now.net.now self.old }
        requires told { AreToldFree making.now.net.now making.now.cap self.old }
        ensures found { OnOk result (AreFound (network_of making.now.net.now) self.old.input.items
            self.old.start.items making.now.assumptions.now self.new.used.items self.new.idle) }
        ensures edges { self.new.edges ≡ self.old.edges }
        ensures start { self.new.start ≡ self.old.start }
        ensures input { self.new.input ≡ self.old.input }
        ensures ends { self.new.ends ≡ self.old.ends }
    {
        let known = Known {
            net: making.net,
            start: self.start.as_slice(),
            input: self.input.as_slice(),
            b: self.edges.b.as_slice(),
            told: self.edges.told.as_slice(),
            cap: making.cap,
        };
        self.idle = find_orders(making.alloc, &known, making.assumptions, &mut self.used)?;
        Ok(())
    }

    // Leaves out the orders whose gate has no table, by words under all that were found.
    fn leave_out(&mut self, making: &Making) -> Result<(), Memory>
        requires making { CanBeMade making.now }
        requires room { IsChangeRoom making.now.net.now self.old }
        requires passed { HavePassed making.now.net.now self.old }
        requires told { AreToldFree making.now.net.now making.now.cap self.old }
        requires found { AreFound (network_of making.now.net.now) self.old.input.items
            self.old.start.items making.now.assumptions.now self.old.used.items self.old.idle }
        ensures used { OnOk result (AreUsed (network_of making.now.net.now) self.old.input.items
            self.old.start.items making.now.cap making.now.assumptions.now
            self.new.edges.told.items self.new.used.items self.new.idle) }
        ensures told { OnOk result (AreToldIfUsed making.now.net.now making.now.cap self.new) }
        ensures passes { PassesRest self.old self.new }
        ensures room { IsChangeRoom making.now.net.now self.new }
    {
        inductive_under_orders();
        if self.used.is_empty() {
            return Ok(());
        }
        self.tell_found(making)?;
        self.used = with_tables(
            making.alloc,
            making.net,
            self.edges.told.as_slice(),
            self.used.as_slice(),
        )?;
        Ok(())
    }

    // Tells words under the orders that were found.
    fn tell_found(&mut self, making: &Making) -> Result<(), Memory>
        requires making { CanBeMade making.now }
        requires room { IsChangeRoom making.now.net.now self.old }
        requires passed { HavePassed making.now.net.now self.old }
        requires told { AreToldFree making.now.net.now making.now.cap self.old }
        ensures told { OnOk result ((tabled : List Order) →
            AreTabled (network_of making.now.net.now) self.new.edges.told.items
            self.old.used.items tabled →
            IsInductiveUnder tabled (network_of making.now.net.now) self.old.input.items
            self.old.start.items making.now.cap self.new.edges.told.items) }
        ensures used { self.new.used ≡ self.old.used }
        ensures idle { self.new.idle ≡ self.old.idle }
        ensures passes { PassesRest self.old self.new }
        ensures room { IsChangeRoom making.now.net.now self.new }
    {
        let change = OrderedChange {
            net: making.net,
            start: self.start.as_slice(),
            input: self.input.as_slice(),
            orders: self.used.as_slice(),
            held: &[],
            cap: making.cap,
        };
        tell_under(making.alloc, &change, self.edges.told.as_mut_slice())
    }
}
