//! The desk: all the room that the analysis of a change takes, made once.
ghost use Rattle.std.specs.Prelude.{◌≡◌, ◌≤◌, IfOk};
ghost use Rattle.hz_net.specs.Network.{network_of, AreByVariable, IsInput};
ghost use Rattle.hz_net.specs.Starts.{IsStableStart};
ghost use Rattle.hz_free.specs.FreePart.{IsFreePart};
ghost use Rattle.hz_desk.specs.Finding.{finding_of};
ghost use Rattle.hz_desk.specs.RightFinding.{IsRightFinding};
ghost use Rattle.hz_word.specs.Capped.{greatest_cap};

use crate::finding::Finding;
use crate::room::Room;
use hz_core::Memory;
use hz_free::Free;
use hz_net::Net;
use std::alloc::Global;
use std::marker::Model;

/// All the room that the analysis of a change of one network takes, and the network's feedback-free part. Contracts see it as the
/// network's circuit and the finding of the last change.
#[derive(Drop)]
pub struct Desk<'n> {
    net: &'n Net,
    room: Room<'n>,
}

impl<'n> Model for Desk<'n> {
    ghost use Rattle.hz_desk.specs.Desk.{DeskOf};
    ghost use Rattle.hz_desk.specs.Finding.{finding_of};

    ghost Value = { DeskOf };

    ghost use Rattle.hz_desk.specs.RoomFor.{IsRoomFor};

    ghost view = { λ fields. record {
      netlist = fields.net.now;
      finding = finding_of fields.room.finding;
    } };

    ghost invariant = { λ fields. IsRoomFor fields.net.now fields.room };
}

impl<'n> Desk<'n> {
    ghost use Rattle.std.specs.Borrow.{sem};
    ghost use Rattle.hz_desk.specs.Lent.{LeavesDesk};

    /// A desk for a network. It takes all the memory that later calls need.
    pub fn new(alloc: Global, net: &'n Net) -> Result<Desk<'n>, Memory>
        ensures { IfOk result (λ desk. desk.netlist ≡ net.now) }
    {
        let room = Room::new(alloc, net)?;
        Ok(Desk { net, room })
    }

    /// The network that the desk is for.
    pub fn net(&self) -> &'n Net
        ensures { result.now ≡ self.now.netlist }
    {
        self.net
    }

    /// The feedback-free part of the network.
    pub fn free(&self) -> &Free
        ensures { IsFreePart self.now.netlist result.now }
    {
        &self.room.free
    }

    /// Analyses one change: from a start that is stable under its own inputs, to a new input. The changes of words are
    /// counted up to the cap. It takes no memory and cannot fail, and the desk stays one for its network.
    pub fn change<'d>(&'d mut self, start: &[bool], input: &[bool], cap: u64) -> &'d Finding
        requires start { IsStableStart self.old.netlist start.now }
        requires input { IsInput self.old.netlist input.now }
        requires cap_low { 1 ≤ cap }
        requires cap_high { cap ≤ greatest_cap }
        ensures right { IsRightFinding (network_of self.old.netlist) input.now start.now cap
            (finding_of result.now) }
        ensures* after { sem 𝓛 (LeavesDesk self.entry
            (λ last. (last.netlist ≡ self.old.netlist) × (last.finding ≡ finding_of result.now))) }
    {
        self.room.analyse(self.net, start, input, cap);
        &self.room.finding
    }

    /// The finding of the last change. Before the first change it says nothing.
    pub fn finding(&self) -> &Finding
        ensures same { finding_of result.now ≡ self.now.finding }
        ensures rows { AreByVariable self.now.netlist result.now.rows }
    {
        &self.room.finding
    }
}
