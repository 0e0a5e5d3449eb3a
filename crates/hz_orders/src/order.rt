//! Orders of the wires of a gate.
ghost use Rattle.std.specs.Prelude.{◌≡◌, ◌<◌, not, length, IsTrue};
ghost use Rattle.hz_core.specs.Ternary.{tri_of};
ghost use Rattle.hz_net.specs.Network.{bit_at, value_at};

use hz_core::Tri;

/// An order of two wires of a gate, by their variables: the second does not change for the `nth` time before the first has changed.
/// Both may change in one step.
#[derive(Clone, Copy, Debug, PartialEq, Eq)]
pub struct Order {
    pub first: u32,
    pub second: u32,
    pub nth: u64,
}

/// Whether a change uses an order, by the result of Algorithm B: whether its first wire must move. If it need not, the order is idle, since it
/// might hold the second wire for ever.
pub fn is_used(order: Order, start: &[bool], b: &[Tri]) -> bool
    requires start { order.first < length start.now }
    requires b { order.first < length b.now }
    ensures used { IsTrue result →
        value_at b.now order.first ≡ tri_of (not (bit_at start.now order.first)) }
    ensures idle { value_at b.now order.first ≡ tri_of (not (bit_at start.now order.first)) →
        IsTrue result }
{
    b[order.first as usize] == Tri::of(!start[order.first as usize])
}
