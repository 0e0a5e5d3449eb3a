//! Why lanes have no stable start: the faults of all lanes in two passes over the nodes.
ghost use Rattle.std.specs.Prelude.{◌≡◌, ℕ, ◌<◌, ◌≤◌, ◌^◌, None, false, true, length};
ghost use Rattle.hz_core.specs.Netlist.{IsCircuit, IsWhole, IsGateNumber};
ghost use Rattle.hz_plane.specs.Bits.{has_lane};
ghost use Rattle.hz_plane.specs.Forward.{AreEvaluated};
ghost use Rattle.hz_plane.specs.Pairs.{pair_at};
ghost use Rattle.hz_plane.specs.Steps.{AreAllPlanes, gate_pair};
ghost use Rattle.hz_plane.specs.Faults.{fault_at, with_fault, conflict_words, IsOpenFault, IsUnstableFault, IsNoted, AreUnknownLanes};

use crate::excited::excited;
use crate::lanes::has_lane;
use crate::listing::Listing;
use crate::pair::{Pair, is_plane, is_zero};
use crate::stage::LaneFault;
use hz_net::Net;
use std::simd::prelude::*;

/// Notes why a lane has no stable start, for each lane: the least open node, and if there is none the least unstable gate. Where
/// each gate is its own excitation, as the caller may say, no lane has a fault.
pub(crate) fn note_faults(
    net: &Net,
    listings: &[Listing],
    values: &[Pair],
    are_evaluated: bool,
    faults: &mut [Option<LaneFault>],
)
    requires circuit { IsCircuit net.now }
    requires whole { IsWhole net.now }
    requires listings { length listings.now ≡ length net.now.names }
    requires values { length values.now ≡ length net.now.names }
    requires planes { AreAllPlanes values.now }
    requires evaluated { are_evaluated ≡ true → AreEvaluated net.now values.now }
    requires faults { length faults.old ≡ 512 }
    ensures { (lane : ℕ) → lane < 512
        → IsNoted net.now listings.now values.now lane (fault_at faults.new lane) }
{
    if are_evaluated {
        forget(faults);
    } else {
        note_all(net, listings, values, faults);
    }
}

// The same, whatever the values are.
fn note_all(net: &Net, listings: &[Listing], values: &[Pair], faults: &mut [Option<LaneFault>])
    requires circuit { IsCircuit net.now }
    requires whole { IsWhole net.now }
    requires listings { length listings.now ≡ length net.now.names }
    requires values { length values.now ≡ length net.now.names }
    requires planes { AreAllPlanes values.now }
    requires faults { length faults.old ≡ 512 }
    ensures { (lane : ℕ) → lane < 512
        → IsNoted net.now listings.now values.now lane (fault_at faults.new lane) }
{
    forget(faults);
    let noted = note_open(values, faults);
    note_unstable(net, listings, values, noted, faults);
}

// No lane has a fault.
fn forget(faults: &mut [Option<LaneFault>])
    ensures { (lane : ℕ) → lane < length faults.old → fault_at faults.new lane ≡ None }
{
    for lane in 0..faults.len() {
        faults[lane] = None;
    }
}

/// The lanes in which some node is X. There are none where each gate is its own excitation, as the caller may say.
pub(crate) fn unsettled_lanes(net: &Net, values: &[Pair], are_evaluated: bool) -> [u64; 8]
    requires values { length values.now ≡ length net.now.names }
    requires planes { AreAllPlanes values.now }
    requires evaluated { are_evaluated ≡ true → AreEvaluated net.now values.now }
    ensures { AreUnknownLanes values.now (length values.now) result }
{
    if are_evaluated {
        return [0; 8];
    }
    unknown_lanes(values)
}

// The lanes in which some node is X.
fn unknown_lanes(values: &[Pair]) -> [u64; 8]
    requires { AreAllPlanes values.now }
    ensures { AreUnknownLanes values.now (length values.now) result }
{
    let mut unknown = u64x8::splat(0);
    is_plane(unknown);
    for node in 0..values.len() {
        let pair = values[node];
        unknown = unknown | (pair.zero & pair.one);
    }
    unknown.to_array()
}

// Notes the least open node of each lane in which a node is X, and returns these lanes.
fn note_open(values: &[Pair], faults: &mut [Option<LaneFault>]) -> u64x8
    requires planes { AreAllPlanes values.now }
    requires few { length values.now < 2 ^ 32 }
    requires faults { length faults.old ≡ 512 }
    requires none { (lane : ℕ) → lane < 512 → fault_at faults.old lane ≡ None }
    ensures lanes { (lane : ℕ) → lane < 512
        → IsOpenFault values.now lane (length values.now) (fault_at faults.new lane) }
    ensures noted { (lane : ℕ) → lane < 512 → fault_at faults.new lane ≡ None
        → has_lane result lane ≡ false }
{
    let mut noted = u64x8::splat(0);
    for node in 0..values.len() {
        let pair = values[node];
        let fault = LaneFault::Open { gate: node as u32 };
        noted = note_new(pair.zero & pair.one, fault, noted, faults);
    }
    noted
}

// Notes the least unstable gate of each lane that has no fault yet. If no node is open, a gate that no lane lists is stable.
fn note_unstable(
    net: &Net,
    listings: &[Listing],
    values: &[Pair],
    noted: u64x8,
    faults: &mut [Option<LaneFault>],
)
    requires circuit { IsCircuit net.now }
    requires whole { IsWhole net.now }
    requires listings { length listings.now ≡ length net.now.names }
    requires values { length values.now ≡ length net.now.names }
    requires planes { AreAllPlanes values.now }
    requires faults { length faults.old ≡ 512 }
    requires noted { (lane : ℕ) → lane < 512 → fault_at faults.old lane ≡ None
        → has_lane noted lane ≡ false }
    ensures { (lane : ℕ) → lane < 512
        → IsUnstableFault net.now listings.now values.now lane (length net.now.names)
        (fault_at faults.old lane) (fault_at faults.new lane) }
{
    let mut noted = noted;
    let circuit = net.circuit();
    for gate in circuit.inputs()..circuit.nodes() {
        if !listings[gate as usize].is_empty() {
            let fault = LaneFault::Unstable { gate };
            noted = note_new(conflict(net, gate, values), fault, noted, faults);
        }
    }
}

// The lanes in which a gate's value and its excitation exclude each other.
#[inline(always)]
fn conflict(net: &Net, gate: u32, values: &[Pair]) -> u64x8
    requires circuit { IsCircuit net.now }
    requires whole { IsWhole net.now }
    requires gate { IsGateNumber net.now gate }
    requires values { length values.now ≡ length net.now.names }
    ensures { result
        ≡ conflict_words (pair_at values.now gate) (gate_pair net.now values.now gate) }
{
    let circuit = net.circuit();
    let excited = excited(circuit.kind(gate), circuit.sources(gate), values);
    let own = values[gate as usize];
    !((own.zero & excited.zero) | (own.one & excited.one))
}

// Notes a fault for each of these lanes that has none yet, and returns the lanes that have one now.
#[inline(always)]
fn note_new(lanes: u64x8, fault: LaneFault, noted: u64x8, faults: &mut [Option<LaneFault>]) -> u64x8
    requires faults { length faults.old ≡ 512 }
    requires noted { (lane : ℕ) → lane < 512 → fault_at faults.old lane ≡ None
        → has_lane noted lane ≡ false }
    ensures lanes { (lane : ℕ) → lane < 512
        → fault_at faults.new lane
        ≡ with_fault (has_lane lanes lane) fault (fault_at faults.old lane) }
    ensures noted { (lane : ℕ) → lane < 512 → fault_at faults.new lane ≡ None
        → has_lane result lane ≡ false }
{
    is_plane(lanes);
    is_plane(noted);
    let fresh = lanes & !noted;
    if is_zero(fresh) {
        return noted;
    }
    note(&fresh.to_array(), fault, faults);
    noted | fresh
}

// Notes a fault for each of these lanes, unless it has one.
fn note(lanes: &[u64; 8], fault: LaneFault, faults: &mut [Option<LaneFault>])
    requires faults { length faults.old ≡ 512 }
    ensures { (lane : ℕ) → lane < 512
        → fault_at faults.new lane
        ≡ with_fault (has_lane lanes.now lane) fault (fault_at faults.old lane) }
{
    for lane in 0..512 {
        if faults[lane].is_none() && has_lane(lanes, lane as u32) {
            faults[lane] = Some(fault);
        }
    }
}
