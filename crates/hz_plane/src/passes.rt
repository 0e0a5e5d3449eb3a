//! The three passes over planes, lane by lane in their clauses.
ghost use Rattle.std.specs.Prelude.{◌≡◌, ℕ, ◌+◌, ◌/◌, ◌<◌, ◌≤◌, Bool, true, Some, [], length};
ghost use Rattle.std.specs.List.{slice_index_or};
ghost use Rattle.hz_core.specs.Ternary.{tri_of};
ghost use Rattle.hz_net.specs.Network.{IsInput};
ghost use Rattle.hz_plane.specs.Pairs.{pair_at, widened_pair, known_pair};
ghost use Rattle.hz_plane.specs.Passes.{HoldsForced, SpreadsLanes, SettlesLanes};
ghost use Rattle.hz_plane.specs.Steps.{AreAllPlanes, HasLane};
ghost use Rattle.hz_plane.specs.Schedules.{IsSchedule};
ghost use Rattle.hz_plane.specs.Bits.{HasValue};
ghost use Rattle.hz_plane.specs.Forward.{IsKnownPair, AreEvaluated};
ghost use Rattle.hz_plane.specs.Lanes.{ListsAllInputs, ListsNoGate, AreInputPlanes, listed_values};
ghost use Rattle.hz_plane.specs.Loads.{lane_listed, listed_in};

use crate::forward::evaluate_all;
use crate::listing::Listing;
use crate::pair::{Pair, is_plane};
use crate::rule::Rule;
use crate::schedule::Schedule;
use crate::sweep::Pass;
use hz_net::Net;
use std::simd::prelude::*;

/// Fills the starts of all lanes from what they list. If each lane lists inputs alone, which the caller then says, and no gate
/// reads itself in a circle, each gate is evaluated once. It answers whether this was so.
pub(crate) fn fill(
    net: &Net,
    schedule: &Schedule,
    marks: &mut [u64],
    listings: &[Listing],
    no_gates: bool,
    values: &mut [Pair],
) -> bool
    requires schedule { IsSchedule net.now schedule.now }
    requires listings { length listings.now ≡ length net.now.names }
    requires values { length values.old ≡ length net.now.names }
    requires marks { length marks.old ≡ length schedule.now.order.items / 64 + 1 }
    ensures planes { AreAllPlanes values.new }
    ensures evaluated { result ≡ true → AreEvaluated net.now values.new }
    ensures lanes { (lane : ℕ) → lane < 512
        → ListsAllInputs net.now (lane_listed listings.now lane)
        → (no_gates ≡ true → ListsNoGate net.now (lane_listed listings.now lane))
        → HoldsForced net.now values.new lane (lane_listed listings.now lane) }
{
    if schedule.is_forward && no_gates {
        fill_forward(net, schedule, listings, values);
        return true;
    }
    fill_by_steps(net, schedule, marks, listings, values);
    false
}

// The same where no gate reads itself in a circle, of the lanes that list inputs alone.
fn fill_forward(net: &Net, schedule: &Schedule, listings: &[Listing], values: &mut [Pair])
    requires schedule { IsSchedule net.now schedule.now }
    requires forward { schedule.now.is_forward ≡ true }
    requires listings { length listings.now ≡ length net.now.names }
    requires values { length values.old ≡ length net.now.names }
    ensures planes { AreAllPlanes values.new }
    ensures evaluated { AreEvaluated net.now values.new }
    ensures lanes { (lane : ℕ) → lane < 512
        → ListsAllInputs net.now (lane_listed listings.now lane)
        → ListsNoGate net.now (lane_listed listings.now lane)
        → HoldsForced net.now values.new lane (lane_listed listings.now lane) }
{
    list_bits(net.circuit().inputs() as usize, listings, values);
    evaluate_all(net, schedule, values);
}

// Gives the first nodes, of this count, the listed bits, and 0 where none is listed.
fn list_bits(count: usize, listings: &[Listing], values: &mut [Pair])
    requires listings { count ≤ length listings.now }
    requires values { count ≤ length values.old }
    ensures known { (node : ℕ) → node < count → IsKnownPair (pair_at values.new node) }
    ensures lanes { (node lane : ℕ) (bit : Bool) → node < count → lane < 512
        → listed_in (slice_index_or listings.now node (record { zeros = []; ones = [] })) lane
        ≡ Some bit
        → HasValue (pair_at values.new node) lane (tri_of bit) }
{
    for node in 0..count {
        values[node] = listings[node].bits();
    }
}

// Fills the starts of all lanes by steps at gates.
fn fill_by_steps(
    net: &Net,
    schedule: &Schedule,
    marks: &mut [u64],
    listings: &[Listing],
    values: &mut [Pair],
)
    requires schedule { IsSchedule net.now schedule.now }
    requires listings { length listings.now ≡ length net.now.names }
    requires values { length values.old ≡ length net.now.names }
    requires marks { length marks.old ≡ length schedule.now.order.items / 64 + 1 }
    ensures planes { AreAllPlanes values.new }
    ensures lanes { (lane : ℕ) → lane < 512
        → ListsAllInputs net.now (lane_listed listings.now lane)
        → HoldsForced net.now values.new lane (lane_listed listings.now lane) }
{
    begin(listings, values);
    let pass = Pass {
        rule: Rule::Narrow,
        net,
        schedule,
    };
    pass.run(marks, values);
}

// The listed values, and X where none is listed.
fn begin(listings: &[Listing], values: &mut [Pair])
    requires { length values.old ≡ length listings.now }
    ensures planes { AreAllPlanes values.new }
    ensures lanes { (lane : ℕ) → lane < 512
        → HasLane values.new lane (listed_values listings.now lane) }
{
    for node in 0..listings.len() {
        values[node] = listings[node].values();
    }
}

// Joins the new input to the inputs' values.
fn join_inputs(inputs: &[[u64; 8]], values: &mut [Pair])
    requires { length inputs.now ≤ length values.old }
    ensures planes { AreInputPlanes inputs.now }
    ensures inputs { (node : ℕ) → node < length inputs.now
        → pair_at values.new node
        ≡ widened_pair (pair_at values.old node)
        (known_pair (slice_index_or inputs.now node [])) }
    ensures rest { (node : ℕ) → length inputs.now ≤ node
        → pair_at values.new node ≡ pair_at values.old node }
{
    for node in 0..inputs.len() {
        let bits = u64x8::from_array(inputs[node]);
        is_plane(bits);
        values[node] = values[node].widened(Pair {
            zero: !bits,
            one: bits,
        });
    }
}

// Gives the inputs their new values.
fn set_inputs(inputs: &[[u64; 8]], values: &mut [Pair])
    requires { length inputs.now ≤ length values.old }
    ensures planes { AreInputPlanes inputs.now }
    ensures inputs { (node : ℕ) → node < length inputs.now
        → pair_at values.new node ≡ known_pair (slice_index_or inputs.now node []) }
    ensures rest { (node : ℕ) → length inputs.now ≤ node
        → pair_at values.new node ≡ pair_at values.old node }
{
    for node in 0..inputs.len() {
        let bits = u64x8::from_array(inputs[node]);
        is_plane(bits);
        values[node] = Pair {
            zero: !bits,
            one: bits,
        };
    }
}

/// Algorithm A in all lanes, from their values, where each wire has its source's.
pub(crate) fn spread(
    net: &Net,
    schedule: &Schedule,
    marks: &mut [u64],
    inputs: &[[u64; 8]],
    values: &mut [Pair],
)
    requires schedule { IsSchedule net.now schedule.now }
    requires inputs { IsInput net.now inputs.now }
    requires values { length values.old ≡ length net.now.names }
    requires planes { AreAllPlanes values.old }
    requires marks { length marks.old ≡ length schedule.now.order.items / 64 + 1 }
    ensures planes { AreAllPlanes values.new }
    ensures lanes { SpreadsLanes net.now inputs.now values.old values.new }
{
    join_inputs(inputs, values);
    let pass = Pass {
        rule: Rule::Widen,
        net,
        schedule,
    };
    pass.run(marks, values);
}

/// Algorithm B in all lanes, from their values, where their excitations lie below them. It answers whether no gate reads itself in
/// a circle, so that each was evaluated once.
pub(crate) fn settle(
    net: &Net,
    schedule: &Schedule,
    marks: &mut [u64],
    inputs: &[[u64; 8]],
    values: &mut [Pair],
) -> bool
    requires schedule { IsSchedule net.now schedule.now }
    requires inputs { IsInput net.now inputs.now }
    requires values { length values.old ≡ length net.now.names }
    requires planes { AreAllPlanes values.old }
    requires marks { length marks.old ≡ length schedule.now.order.items / 64 + 1 }
    ensures planes { AreAllPlanes values.new }
    ensures evaluated { result ≡ true → AreEvaluated net.now values.new }
    ensures lanes { SettlesLanes net.now inputs.now values.old values.new }
{
    if schedule.is_forward {
        settle_forward(net, schedule, inputs, values);
        return true;
    }
    settle_by_steps(net, schedule, marks, inputs, values);
    false
}

// The same where no gate reads itself in a circle.
fn settle_forward(net: &Net, schedule: &Schedule, inputs: &[[u64; 8]], values: &mut [Pair])
    requires schedule { IsSchedule net.now schedule.now }
    requires forward { schedule.now.is_forward ≡ true }
    requires inputs { IsInput net.now inputs.now }
    requires values { length values.old ≡ length net.now.names }
    ensures planes { AreAllPlanes values.new }
    ensures evaluated { AreEvaluated net.now values.new }
    ensures lanes { SettlesLanes net.now inputs.now values.old values.new }
{
    net.keeps_shape();
    set_inputs(inputs, values);
    evaluate_all(net, schedule, values);
}

// The same by steps at gates.
fn settle_by_steps(
    net: &Net,
    schedule: &Schedule,
    marks: &mut [u64],
    inputs: &[[u64; 8]],
    values: &mut [Pair],
)
    requires schedule { IsSchedule net.now schedule.now }
    requires inputs { IsInput net.now inputs.now }
    requires values { length values.old ≡ length net.now.names }
    requires planes { AreAllPlanes values.old }
    requires marks { length marks.old ≡ length schedule.now.order.items / 64 + 1 }
    ensures planes { AreAllPlanes values.new }
    ensures lanes { SettlesLanes net.now inputs.now values.old values.new }
{
    set_inputs(inputs, values);
    let pass = Pass {
        rule: Rule::Narrow,
        net,
        schedule,
    };
    pass.run(marks, values);
}
