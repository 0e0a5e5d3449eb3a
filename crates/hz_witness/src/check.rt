//! Whether a run that was tried shows what a witness shows.
ghost use Rattle.std.specs.Prelude.{IsTrue};
ghost use Rattle.hz_net.specs.Network.{network_of, AreByVariable, IsInput, IsState, IsVariable};
ghost use Rattle.hz_net.specs.Reads.{IsNode};
ghost use Rattle.hz_witness.specs.Witness.{AreSettled, DoesChange, DoNodesChange, IsSettledAt};

use hz_core::Tri;
use hz_net::{Net, VarKind};

/// Whether each node that is X in the result of Algorithm A has changed.
pub(crate) fn do_nodes_change(net: &Net, a: &[Tri], counts: &[u32]) -> bool
    requires a { AreByVariable net.now a.now }
    requires counts { AreByVariable net.now counts.now }
    ensures { IsTrue result → DoNodesChange (network_of net.now) a.now counts.now }
{
    for var in 0..net.len() {
        if !does_change(net, a, counts, var) {
            return false;
        }
    }
    true
}

// Whether a variable has changed, if it is a node that is X in the result of Algorithm A.
fn does_change(net: &Net, a: &[Tri], counts: &[u32], var: u32) -> bool
    requires a { AreByVariable net.now a.now }
    requires counts { AreByVariable net.now counts.now }
    requires var { IsVariable net.now var }
    ensures { IsTrue result → DoesChange (network_of net.now) a.now counts.now var }
{
    counts[var as usize] > 0 || a[var as usize] != Tri::Unknown || is_wire(net, var)
}

// Whether a variable is a wire.
fn is_wire(net: &Net, var: u32) -> bool
    requires { IsVariable net.now var }
    ensures { IsTrue result → IsNode (network_of net.now) var → ⊥ }
{
    net.keeps_shape();
    match net.kind_of(var) {
        VarKind::Wire { .. } => true,
        VarKind::Input { .. } => false,
        VarKind::Gate { .. } => false,
    }
}

/// Whether each variable that Algorithm B makes 0 or 1 has this value and is stable.
pub(crate) fn are_settled(net: &Net, input: &[bool], b: &[Tri], state: &[bool]) -> bool
    requires input { IsInput net.now input.now }
    requires b { AreByVariable net.now b.now }
    requires state { IsState net.now state.now }
    ensures { IsTrue result → AreSettled (network_of net.now) input.now b.now state.now }
{
    for var in 0..net.len() {
        if !is_settled(net, input, b, state, var) {
            return false;
        }
    }
    true
}

// Whether a variable that must settle has settled.
fn is_settled(net: &Net, input: &[bool], b: &[Tri], state: &[bool], var: u32) -> bool
    requires input { IsInput net.now input.now }
    requires b { AreByVariable net.now b.now }
    requires state { IsState net.now state.now }
    requires var { IsVariable net.now var }
    ensures { IsTrue result → IsSettledAt (network_of net.now) input.now b.now state.now var }
{
    let value = b[var as usize];
    let bit = state[var as usize];
    value == Tri::Unknown || value.admits(bit) && bit == net.excite(input, state, var)
}
