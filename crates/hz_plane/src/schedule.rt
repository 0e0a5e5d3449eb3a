//! All gates in an order, and the places at which each is read.
ghost use Rattle.std.specs.Prelude.{◌≡◌, ℕ, ◌<◌, ◌≤◌, [], true, IfOk, length};
ghost use Rattle.hz_plane.specs.Schedules.{IsSchedule};
ghost use Rattle.hz_plane.specs.Sweeps.{readers_at};

use crate::copies::{list_kinds, list_pins};
use crate::lists::Lists;
use crate::order::order_gates;
use crate::readers::{list_back, list_by_node, list_readers};
use crate::search::Order;
use hz_core::{Kind, Memory};
use hz_net::Net;
use std::alloc::Global;

/// The gates in an order; for each place the places of the gates that read its gate; those of them that stand no later;
/// whether there are none of these, as without feedback; places behind loops; and the kind and the pins of the gate at each place.
#[derive(Debug, Drop)]
pub(crate) struct Schedule {
    pub(crate) order: Vec<u32>,
    pub(crate) readers: Lists,
    pub(crate) back: Lists,
    pub(crate) is_forward: bool,
    pub(crate) ends: Vec<usize>,
    pub(crate) kinds: Vec<Kind>,
    pub(crate) pins: Lists,
}

impl Schedule {
    /// The schedule of the gates of a network.
    pub(crate) fn of(alloc: Global, net: &Net) -> Result<Schedule, Memory>
        ensures { IfOk result (IsSchedule net.now) }
    {
        net.keeps_shape();
        let Order { gates: order, ends } = order_gates(alloc, net)?;
        let by_node = list_by_node(alloc, net, order.as_slice())?;
        let readers = list_readers(alloc, net, order.as_slice(), &by_node)?;
        let back = list_back(alloc, net, order.as_slice(), &by_node)?;
        let is_forward = are_empty(&back, order.len());
        let kinds = list_kinds(alloc, net, order.as_slice())?;
        let pins = list_pins(alloc, net, order.as_slice())?;
        Ok(Schedule {
            order,
            readers,
            back,
            is_forward,
            ends,
            kinds,
            pins,
        })
    }
}

// Whether the first lists, of this count, are empty.
fn are_empty(lists: &Lists, count: usize) -> bool
    requires { count ≤ length lists.now }
    ensures { result ≡ true → (number : ℕ) → number < count → readers_at lists.now number ≡ [] }
{
    for number in 0..count {
        if !lists.at(number).is_empty() {
            return false;
        }
    }
    true
}
