//! The memory in which changes are made.
ghost use Rattle.std.specs.Prelude.{◌≡◌, None, IfOk};
ghost use Rattle.hz_net.specs.Network.{IsState};
ghost use Rattle.hz_edge_reports.specs.Room.{IsChangeRoom};

use hz_core::{Memory, Tri};
use hz_edges::EdgeRoom;
use hz_net::Net;
use hz_orders::Order;
use std::alloc::Global;

/// What is found of a change, and what it is found with. Afterwards it holds where the next change starts, or the variable that stops it.
#[derive(Drop)]
pub struct ChangeRoom {
    /// The state in which a change starts.
    pub start: Vec<bool>,
    /// The new input.
    pub input: Vec<bool>,
    /// The results of both algorithms, and what is told of edges.
    pub edges: EdgeRoom,
    /// The orders that the change uses.
    pub used: Vec<Order>,
    /// How many orders are idle.
    pub idle: usize,
    /// What each variable comes to.
    pub ends: Vec<Tri>,
    /// Whether a run that keeps the orders is shown.
    pub kept: bool,
    /// The variable that stops all later changes.
    pub stopped: Option<u32>,
}

impl ChangeRoom {
    /// Room for the changes of a network.
    pub fn new(alloc: Global, net: &Net) -> Result<ChangeRoom, Memory>
        ensures { IfOk result (IsChangeRoom net.now) }
    {
        net.keeps_shape();
        let variables = net.len() as usize;
        Ok(ChangeRoom {
            start: vec![in alloc; false; variables]?,
            input: vec![in alloc; false; net.circuit().inputs() as usize]?,
            edges: EdgeRoom::new(alloc, net)?,
            used: Vec::new(alloc),
            idle: 0,
            ends: vec![in alloc; Tri::Zero; variables]?,
            kept: false,
            stopped: None,
        })
    }

    /// The next change starts in this state.
    pub fn begin(&mut self, net: &Net, start: &[bool])
        requires room { IsChangeRoom net.now self.old }
        requires start { IsState net.now start.now }
        ensures room { IsChangeRoom net.now self.new }
        ensures start { self.new.start.items ≡ start.now }
        ensures stopped { self.new.stopped ≡ None }
    {
        self.start.copy_from_slice(start);
        self.stopped = None;
    }
}
