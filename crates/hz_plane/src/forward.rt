//! Gates without feedback: one evaluation of each is enough.
ghost use Rattle.std.specs.Prelude.{◌≡◌, ◌<◌, ◌+◌, ℕ, All, true, length, slice_index, slice_set};
ghost use Rattle.hz_core.specs.Netlist.{IsCircuit, IsWhole, IsGateNumber, gate_at};
ghost use Rattle.hz_plane.specs.Forward.{IsKnownPair, AreKnownInputs, AreEvaluated, AreEvaluatedBelow};
ghost use Rattle.hz_plane.specs.Pairs.{pair_at};
ghost use Rattle.hz_plane.specs.Schedules.{IsSchedule};
ghost use Rattle.hz_plane.specs.Steps.{gate_pair};

use crate::ones::excited_ones;
use crate::pair::Pair;
use crate::schedule::Schedule;
use hz_core::Kind;
use hz_net::Net;

/// Gives each gate its excitation, if each input has a known bit in each lane. Then each gate has one too.
pub(crate) fn evaluate_all(net: &Net, schedule: &Schedule, planes: &mut [Pair])
    requires schedule { IsSchedule net.now schedule.now }
    requires forward { schedule.now.is_forward ≡ true }
    requires long { length planes.old ≡ length net.now.names }
    requires inputs { AreKnownInputs net.now planes.old }
    ensures evaluated { AreEvaluated net.now planes.new }
    ensures inputs { (input : ℕ) → input < net.now.inputs
        → pair_at planes.new input ≡ pair_at planes.old input }
{
    for place in 0..schedule.order.len() {
        evaluate_at(net, schedule, place, planes);
    }
}

// Gives the gate at a place its excitation.
#[inline(always)]
fn evaluate_at(net: &Net, schedule: &Schedule, place: usize, planes: &mut [Pair])
    requires schedule { IsSchedule net.now schedule.now }
    requires forward { schedule.now.is_forward ≡ true }
    requires long { length planes.old ≡ length net.now.names }
    requires place { place < length schedule.now.order.items }
    requires below { AreEvaluatedBelow place net.now schedule.now.order.items planes.old }
    ensures below { AreEvaluatedBelow (place + 1) net.now schedule.now.order.items planes.new }
    ensures inputs { (input : ℕ) → input < net.now.inputs
        → pair_at planes.new input ≡ pair_at planes.old input }
{
    let gate = schedule.order.as_slice()[place];
    let kind = schedule.kinds.as_slice()[place];
    evaluate(net, gate, kind, schedule.pins.at(place), planes);
}

// Gives a gate its excitation, by its kind and by the nodes that it reads, if each of these has a known bit in each lane.
#[inline(always)]
fn evaluate(net: &Net, gate: u32, kind: Kind, sources: &[u32], planes: &mut [Pair])
    requires gate { IsGateNumber net.now gate }
    requires circuit { IsCircuit net.now }
    requires whole { IsWhole net.now }
    requires long { length planes.old ≡ length net.now.names }
    requires kind { kind ≡ (gate_at net.now gate).kind }
    requires sources { sources.now ≡ (gate_at net.now gate).sources }
    requires known { All (λ source. IsKnownPair (pair_at planes.old source))
        (gate_at net.now gate).sources }
    ensures made { planes.new ≡ slice_set planes.old gate (gate_pair net.now planes.old gate) }
    ensures known { IsKnownPair (gate_pair net.now planes.old gate) }
{
    let one = excited_ones(kind, sources, planes);
    planes[gate as usize] = Pair { zero: !one, one };
}
