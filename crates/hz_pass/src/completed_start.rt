//! The completed start: what listed values force upon all nodes.
ghost use Rattle.std.specs.Prelude.{◌≡◌, ◌≢◌, ℕ, ◌<◌, ◌≤◌, length, map, take, slice_get, Some, None, MatchResult, MatchOption, IfOk};
ghost use Rattle.hz_core.specs.declared.tri.Tri.TheVariants.{Unknown};
ghost use Rattle.hz_core.specs.Netlist.{IsCircuit, IsGateNumber, primary_inputs};
ghost use Rattle.hz_net.specs.Network.{network_of, value_at, bit_at, excitation, IsState, IsInput};
ghost use Rattle.hz_net.specs.Starts.{ListsInputs, IsAcceptedStart};
ghost use Rattle.hz_pass.specs.Forcing.{AreForcedValues, AreDelivered};
ghost use Rattle.hz_pass.specs.Completed.{IsStartFault, bit_or_zero, IsLeastUnknown, IsLeastUnstableIn};

use crate::forcing::carried_values;
use crate::sweep::swept_values;
use hz_core::{Memory, Tri};
use hz_net::Net;
use std::alloc::Global;
use thiserror::Error;

/// Why listed values give no start.
#[derive(Clone, Copy, Debug, PartialEq, Eq, Error)]
pub enum StartFault {
    /// The least node that is open, a cut or a gate.
    #[error("open {gate}")]
    Open { gate: u32 },
    /// The least gate that is unstable, if no node is open.
    #[error("unstable {gate}")]
    Unstable { gate: u32 },
    /// There was no memory.
    #[error("out of memory")]
    Memory,
}

/// The start that listed values force: the value of each variable.
///
/// `listed` has an entry for each node. A cut that is not listed gets the value of its data node, as in a clocked circuit at
/// rest. A gate that is not listed gets the value that its function has whatever the pins hold that are not forced. The start is
/// accepted if each cut and each gate gets a value and no gate is unstable. The work grows with the size of the network.
pub fn complete(alloc: Global, net: &Net, listed: &[Option<bool>]) -> Result<Vec<bool>, StartFault>
    requires listed { length listed.now ≡ length net.now.names }
    requires inputs { ListsInputs net.now listed.now }
    ensures start { MatchResult result (λ state. IsAcceptedStart net.now listed.now state.items)
        (IsStartFault net.now listed.now) }
{
    let Ok(values) = forced_values(alloc, net, listed) else {
        return Err(StartFault::Memory);
    };
    net.keeps_shape();
    if let Some(node) = least_open(net, values.as_slice()) {
        return Err(StartFault::Open { gate: node });
    }
    // Each wire has its source's value.
    let Ok(state) = bits_of(alloc, values.as_slice()) else {
        return Err(StartFault::Memory);
    };
    if let Some(gate) = least_unstable(net, listed, state.as_slice()) {
        return Err(StartFault::Unstable { gate });
    }
    Ok(state)
}

// The value that each node is forced to, X if it is open, and for each wire its source's.
fn forced_values(alloc: Global, net: &Net, listed: &[Option<bool>]) -> Result<Vec<Tri>, Memory>
    requires { length listed.now ≡ length net.now.names }
    ensures forced { IfOk result (λ values. AreForcedValues net.now listed.now values.items) }
    ensures delivered { IfOk result (λ values. AreDelivered net.now values.items) }
{
    if let Some(values) = swept_values(alloc, net, listed)? {
        return Ok(values);
    }
    carried_values(alloc, net, listed)
}

// The least node that is X. The primary inputs are listed.
fn least_open(net: &Net, values: &[Tri]) -> Option<u32>
    requires circuit { IsCircuit net.now }
    requires values { IsState net.now values.now }
    ensures { MatchOption result ((node : ℕ) → primary_inputs net.now ≤ node
        → node < length net.now.names → value_at values.now node ≢ Unknown)
        (λ node. IsLeastUnknown net.now values.now node) }
{
    let circuit = net.circuit();
    for node in circuit.primary_inputs()..circuit.nodes() {
        if values[node as usize] == Tri::Unknown {
            return Some(node);
        }
    }
    None
}

// The bits of known values.
fn bits_of(alloc: Global, values: &[Tri]) -> Result<Vec<bool>, Memory>
    ensures { IfOk result (λ bits. bits.items ≡ map bit_or_zero values.now) }
{
    let bits = values
        .iter()
        .map(|value| value.bit().unwrap_or(false))
        .collect(alloc)?;
    Ok(bits)
}

// The least gate that is unstable under the inputs of the state. A gate that is not listed follows its pins.
fn least_unstable(net: &Net, listed: &[Option<bool>], state: &[bool]) -> Option<u32>
    requires circuit { IsCircuit net.now }
    requires listed { length listed.now ≡ length net.now.names }
    requires state { IsState net.now state.now }
    requires follow { (gate : ℕ) → IsGateNumber net.now gate → slice_get listed.now gate ≡ Some None
        → bit_at state.now gate
        ≡ excitation (network_of net.now) (take net.now.inputs state.now) state.now gate }
    ensures { MatchOption result
        ((gate : ℕ) → IsGateNumber net.now gate → bit_at state.now gate
        ≡ excitation (network_of net.now) (take net.now.inputs state.now) state.now gate)
        (λ gate. IsLeastUnstableIn net.now state.now gate) }
{
    let circuit = net.circuit();
    let input = &state[..circuit.inputs() as usize];
    for gate in circuit.inputs()..circuit.nodes() {
        if state[gate as usize] != excitation_of(net, listed, input, state, gate) {
            return Some(gate);
        }
    }
    None
}

// The excitation of a gate, which is its bit if it is not listed.
fn excitation_of(
    net: &Net,
    listed: &[Option<bool>],
    input: &[bool],
    state: &[bool],
    gate: u32,
) -> bool
    requires circuit { IsCircuit net.now }
    requires listed { length listed.now ≡ length net.now.names }
    requires input { IsInput net.now input.now }
    requires state { IsState net.now state.now }
    requires gate { IsGateNumber net.now gate }
    requires follow { slice_get listed.now gate ≡ Some None
        → bit_at state.now gate ≡ excitation (network_of net.now) input.now state.now gate }
    ensures { result ≡ excitation (network_of net.now) input.now state.now gate }
{
    match listed[gate as usize] {
        Some(_) => net.excite(input, state, gate),
        None => state[gate as usize],
    }
}
