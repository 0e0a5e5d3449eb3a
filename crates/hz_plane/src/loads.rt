//! What each lane was loaded with.
ghost use Rattle.std.specs.Prelude.{◌≡◌, ◌≢◌, ◌+◌, ◌*◌, ◌/◌, ◌<◌, ◌≤◌, ◌++◌, ℕ, All, None, Some, [], IfOk, IsTrue, drop, false, true, length, map, replicate, slice_get, slice_set};
ghost use Rattle.std.specs.List.{slice_index_or};
ghost use Rattle.hz_plane.specs.Bits.{has_lane};
ghost use Rattle.hz_plane.specs.Loads.{Loaded, block_loads, held_load, lane_input, lane_listed, held_at, listed_with, loaded_from};

use crate::eights::{set_eight, start_eight};
use crate::lanes::{put_eight, put_lane};
use crate::listing::Listing;
use hz_core::Memory;
use std::alloc::Global;
use std::marker::Model;

/// The lanes that were loaded; for each input the lanes whose new input has a 1 there; for each node what the lanes list; and
/// whether it is known that no lane lists a gate.
#[derive(Debug, Drop)]
pub(crate) struct Loads {
    loaded: [u64; 8],
    inputs: Vec<[u64; 8]>,
    listings: Vec<Listing>,
    no_gates: bool,
}

impl Model for Loads {
    ghost use Rattle.hz_plane.specs.Loads.{LaneLoads};

    ghost Value = { LaneLoads };

    ghost use Rattle.hz_plane.specs.LoadsInside.{loads_of, HoldsLoads};

    ghost view = { loads_of };

    ghost invariant = { HoldsLoads };
}

impl Loads {
    /// No lane is loaded.
    pub(crate) fn new(alloc: Global, inputs: u32, nodes: u32) -> Result<Loads, Memory>
        ensures { IfOk result
            (λ loads. loads
            ≡ record { inputs = inputs; nodes = nodes; lanes = replicate 512 None }) }
    {
        let planes = vec![in alloc; [0; 8]; inputs as usize]?;
        Ok(Loads {
            loaded: [0; 8],
            inputs: planes,
            listings: no_listings(alloc, nodes)?,
            no_gates: true,
        })
    }

    /// Forgets what was loaded.
    pub(crate) fn clear(&mut self)
        ensures { self.new ≡ record self.old { lanes = replicate 512 None } }
    {
        self.loaded = [0; 8];
        let count = listed_count(self.no_gates, self.inputs.len(), self.listings.len());
        unlist_first(self.listings.as_mut_slice(), count);
        self.no_gates = true;
    }

    /// Whether it is known that no lane lists a gate.
    pub(crate) fn lists_no_gate(&self) -> bool
        ensures { result ≡ true → (lane : ℕ) (loaded : Loaded)
            → slice_get self.now.lanes lane ≡ Some (Some loaded)
            → (gate : ℕ) → self.now.inputs ≤ gate → gate < self.now.nodes
            → slice_get loaded.listed gate ≡ Some None }
    {
        self.no_gates
    }

    /// For each input the lanes whose new input has a 1 there.
    pub(crate) fn inputs(&self) -> &[[u64; 8]]
        ensures count { length result.now ≡ self.now.inputs }
        ensures lanes { (lane : ℕ) (loaded : Loaded)
            → slice_get self.now.lanes lane ≡ Some (Some loaded)
            → lane_input result.now lane ≡ loaded.input }
        ensures long { length self.now.lanes ≡ 512 }
    {
        self.inputs.as_slice()
    }

    /// For each node what the lanes list.
    pub(crate) fn listings(&self) -> &[Listing]
        ensures count { length result.now ≡ self.now.nodes }
        ensures lanes { (lane : ℕ) (loaded : Loaded)
            → slice_get self.now.lanes lane ≡ Some (Some loaded)
            → lane_listed result.now lane ≡ loaded.listed }
        ensures long { length self.now.lanes ≡ 512 }
    {
        self.listings.as_slice()
    }

    /// Loads a lane with a new input and a listed start.
    pub(crate) fn load(&mut self, lane: u32, input: &[bool], listed: &[Option<bool>])
        requires lane { lane < 512 }
        requires input { length input.now ≡ self.old.inputs }
        requires listed { length listed.now ≡ self.old.nodes }
        ensures { self.new ≡ record self.old {
          lanes = slice_set self.old.lanes lane
              (Some (record { input = input.now; listed = listed.now }));
        } }
    {
        put_inputs(lane, input, self.inputs.as_mut_slice());
        put_listed(lane, listed, self.listings.as_mut_slice());
        put_lane(&mut self.loaded, lane, true);
        self.no_gates = false;
    }

    /// Forgets what was loaded, and loads the first lanes, from a list of the bits of one lane after the other.
    pub(crate) fn load_block(&mut self, lanes: u32, bits: &[bool], held: &[(u32, bool)])
        requires lanes { lanes ≤ 512 }
        requires inputs { self.old.inputs ≤ self.old.nodes }
        requires bits { length bits.now ≡ lanes * (2 * self.old.inputs) }
        requires held { All (λ node. node.0 < self.old.nodes) held.now }
        ensures { self.new ≡ record self.old {
          lanes = block_loads self.old.nodes self.old.inputs held.now lanes bits.now;
        } }
    {
        self.clear();
        self.load_eights(lanes / 8, bits);
        self.load_rest(8 * (lanes / 8), lanes, bits);
        self.hold(held);
    }

    // Lets each loaded lane list the held gates too.
    fn hold(&mut self, held: &[(u32, bool)])
        requires { All (λ node. node.0 < self.old.nodes) held.now }
        ensures { self.new ≡ record self.old {
          lanes = map (held_load held.now) self.old.lanes;
        } }
    {
        hold_lanes(&self.loaded, held, self.listings.as_mut_slice());
        self.no_gates = are_none_with(self.no_gates, held);
    }

    // Loads the first lanes, eight at once, if no lane is loaded. No gate is held.
    fn load_eights(&mut self, eights: u32, bits: &[bool])
        requires eights { eights ≤ 64 }
        requires inputs { self.old.inputs ≤ self.old.nodes }
        requires bits { 8 * eights * (2 * self.old.inputs) ≤ length bits.now }
        requires none { self.old.lanes ≡ replicate 512 None }
        ensures { self.new ≡ record self.old {
          lanes = block_loads self.old.nodes self.old.inputs [] (8 * eights) bits.now;
        } }
    {
        for eight in 0..eights {
            self.load_eight(eight, bits);
        }
    }

    // Loads eight lanes, none of which is loaded. No gate is held.
    fn load_eight(&mut self, eight: u32, bits: &[bool])
        requires eight { eight < 64 }
        requires inputs { self.old.inputs ≤ self.old.nodes }
        requires bits { 8 * (eight + 1) * (2 * self.old.inputs) ≤ length bits.now }
        requires none { (lane : ℕ) → lane / 8 ≡ eight → slice_get self.old.lanes lane ≡ Some None }
        ensures inputs { self.new.inputs ≡ self.old.inputs }
        ensures nodes { self.new.nodes ≡ self.old.nodes }
        ensures long { length self.new.lanes ≡ 512 }
        ensures here { (lane : ℕ) → lane / 8 ≡ eight → slice_get self.new.lanes lane
            ≡ Some (Some (loaded_from self.old.nodes self.old.inputs []
            (drop (lane * (2 * self.old.inputs)) bits.now))) }
        ensures others { (other : ℕ) → other < 512 → other / 8 ≢ eight
            → slice_get self.new.lanes other ≡ slice_get self.old.lanes other }
    {
        let inputs = self.inputs.len();
        let step = 2 * inputs;
        let at = 8 * eight as usize * step;
        set_eight(eight, bits, at + inputs, step, self.inputs.as_mut_slice());
        start_eight(eight, bits, at, inputs, self.listings.as_mut_slice());
        put_eight(&mut self.loaded, eight, u8::MAX);
    }

    // Loads the lanes that are left, one by one. No gate is held.
    fn load_rest(&mut self, first: u32, lanes: u32, bits: &[bool])
        requires first { first ≤ lanes }
        requires lanes { lanes ≤ 512 }
        requires inputs { self.old.inputs ≤ self.old.nodes }
        requires bits { length bits.now ≡ lanes * (2 * self.old.inputs) }
        requires so_far { self.old.lanes
            ≡ block_loads self.old.nodes self.old.inputs [] first bits.now }
        ensures { self.new ≡ record self.old {
          lanes = block_loads self.old.nodes self.old.inputs [] lanes bits.now;
        } }
    {
        for lane in first..lanes {
            let inputs = self.inputs.len();
            let at = lane as usize * (2 * inputs);
            let middle = at + inputs;
            self.load_one(lane, &bits[middle..middle + inputs], &bits[at..middle]);
        }
    }

    // Loads a lane that is not loaded: its new input, and the start that lists the first bits of the inputs. No gate is held.
    fn load_one(&mut self, lane: u32, input: &[bool], first: &[bool])
        requires lane { lane < 512 }
        requires none { slice_get self.old.lanes lane ≡ Some None }
        requires input { length input.now ≡ self.old.inputs }
        requires first { length first.now ≤ self.old.nodes }
        requires inputs { length first.now ≤ self.old.inputs }
        ensures { self.new ≡ record self.old {
          lanes = slice_set self.old.lanes lane (Some (record {
            input = input.now;
            listed = listed_with self.old.nodes first.now [];
          }));
        } }
    {
        put_inputs(lane, input, self.inputs.as_mut_slice());
        list_inputs(lane, first, self.listings.as_mut_slice());
        put_lane(&mut self.loaded, lane, true);
    }
}

// Whether no gate is listed still, if these are.
fn are_none_with(no_gates: bool, held: &[(u32, bool)]) -> bool
    ensures { result ≡ true → (no_gates ≡ true) × (length held.now ≡ 0) }
{
    no_gates && held.is_empty()
}

// Nodes that no lane lists.
fn no_listings(alloc: Global, nodes: u32) -> Result<Vec<Listing>, Memory>
    ensures { IfOk result
        (λ listings. (lane : ℕ) → lane_listed listings.items lane ≡ replicate nodes None) }
{
    let mut listings = Vec::with_capacity(alloc, nodes as usize)?;
    for _node in 0..nodes {
        listings.push(Listing::none())?;
    }
    Ok(listings)
}

// How many nodes some lane may list: the inputs, if no lane lists a gate.
fn listed_count(no_gates: bool, inputs: usize, nodes: usize) -> usize
    ensures few { result ≤ nodes }
    ensures rest { result < nodes → (no_gates ≡ true) × (inputs ≤ result) }
{
    if no_gates { inputs.min(nodes) } else { nodes }
}

// Lets no lane list a node. The nodes after the first ones are not listed already.
fn unlist_first(listings: &mut [Listing], count: usize)
    requires few { count ≤ length listings.old }
    requires rest { (lane node : ℕ) → lane < 512 → count ≤ node → node < length listings.old
        → slice_index_or (lane_listed listings.old lane) node None ≡ None }
    ensures { (lane : ℕ) → lane < 512
        → lane_listed listings.new lane ≡ replicate (length listings.old) None }
{
    for node in 0..count {
        listings[node] = Listing::none();
    }
}

// Gives a lane its new input.
fn put_inputs(lane: u32, input: &[bool], inputs: &mut [[u64; 8]])
    requires lane { lane < 512 }
    requires input { length input.now ≡ length inputs.old }
    ensures here { lane_input inputs.new lane ≡ input.now }
    ensures others { (other : ℕ) → other < 512 → other ≢ lane
        → lane_input inputs.new other ≡ lane_input inputs.old other }
{
    for i in 0..input.len() {
        put_lane(&mut inputs[i], lane, input[i]);
    }
}

// Gives a lane its listed start.
fn put_listed(lane: u32, listed: &[Option<bool>], listings: &mut [Listing])
    requires lane { lane < 512 }
    requires listed { length listed.now ≡ length listings.old }
    ensures here { lane_listed listings.new lane ≡ listed.now }
    ensures others { (other : ℕ) → other < 512 → other ≢ lane
        → lane_listed listings.new other ≡ lane_listed listings.old other }
{
    for node in 0..listed.len() {
        listings[node].put(lane, listed[node]);
    }
}

// Lets a lane that lists nothing list the first bits of the inputs.
fn list_inputs(lane: u32, first: &[bool], listings: &mut [Listing])
    requires lane { lane < 512 }
    requires first { length first.now ≤ length listings.old }
    requires none { lane_listed listings.old lane ≡ replicate (length listings.old) None }
    ensures here { lane_listed listings.new lane ≡ map Some first.now
        ++ drop (length first.now) (lane_listed listings.old lane) }
    ensures others { (other : ℕ) → other < 512 → other ≢ lane
        → lane_listed listings.new other ≡ lane_listed listings.old other }
{
    for node in 0..first.len() {
        listings[node].list(lane, first[node]);
    }
}

// Lets each lane of a set list the held gates.
fn hold_lanes(lanes: &[u64; 8], held: &[(u32, bool)], listings: &mut [Listing])
    requires held { All (λ node. node.0 < length listings.old) held.now }
    ensures here { (lane : ℕ) → lane < 512 → has_lane lanes.now lane ≡ true
        → lane_listed listings.new lane ≡ held_at held.now (lane_listed listings.old lane) }
    ensures others { (other : ℕ) → other < 512 → has_lane lanes.now other ≡ false
        → lane_listed listings.new other ≡ lane_listed listings.old other }
{
    for (node, bit) in held {
        listings[*node as usize].hold(lanes, *bit);
    }
}
