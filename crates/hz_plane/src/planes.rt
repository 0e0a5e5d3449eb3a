//! 512 patterns at once.
//!
//! The idea. A node has two words for each 64 lanes: the lanes in which it can be 0, and those in which it can be 1; X is both.
//! A wire has its source's value in each result, so wires need no planes. If the circuit has feedback, all three passes are one
//! loop over the gates, which evaluates them in place until none would change (`sweep`). If it has none, Algorithm A makes one
//! sweep, and Algorithm B evaluates each gate once, and so does the completion of starts that list inputs alone (`forward`).
//!
//! What must stay true: `HoldsPlanes`.
ghost use Rattle.std.specs.Prelude.{◌≡◌, ◌≢◌, ◌+◌, ◌*◌, ◌<◌, ◌≤◌, ◌^◌, ◌-◌, ℕ, All, Option, Some, None, IfOk, length, min, replicate, slice_get, slice_set};
ghost use Rattle.hz_core.specs.declared.tri.Tri.TheVariants.{Unknown};
ghost use Rattle.hz_core.specs.Netlist.{IsGateNumber};
ghost use Rattle.hz_net.specs.Network.{IsInput, IsVariable};
ghost use Rattle.hz_plane.specs.Lanes.{ListsAllInputs};
ghost use Rattle.hz_plane.specs.Loads.{Loaded, block_loads};
ghost use Rattle.hz_plane.specs.Steps.{AreAllPlanes};
ghost use Rattle.hz_plane.specs.View.{Seen, IsLaneValue, IsFilledValue, IsLaneFault, IsNodeOf, IsUnsettled, LeavesUnknown, value_by, value_in};
ghost use Rattle.hz_plane.specs.declared.stage.Stage.TheVariants.{Loading, Completed, Spread, Settled};

use crate::faults::{note_faults, unsettled_lanes};
use crate::lanes::has_lane;
use crate::loads::Loads;
use crate::pair::Pair;
use crate::passes::{fill, settle, spread};
use crate::schedule::Schedule;
use crate::stage::{LaneFault, Stage};
use crate::values::{LaneValues, value_by};
use hz_core::{Memory, Tri};
use hz_net::{Net, VarKind};
use std::alloc::Global;
use std::marker::Model;
use std::simd::prelude::*;

/// Bit planes of a network for 512 lanes, each of which holds a pattern: a start, and a new input.
///
/// `load_block` loads the first lanes at once, `load` a lane of its own. Then `complete` fills the starts of all lanes, `spread`
/// makes Algorithm A of them, and `settle` Algorithm B (Brzozowski and Seger). Each is one pass for all lanes.
#[derive(Debug, Drop)]
pub struct Planes<'n> {
    net: &'n Net,
    stage: Stage,
    settles: u64,
    schedule: Schedule,
    marks: Vec<u64>,
    loads: Loads,
    values: Vec<Pair>,
    faults: Vec<Option<LaneFault>>,
    unsettled: [u64; 8],
}

impl<'n> Model for Planes<'n> {
    ghost use Rattle.hz_plane.specs.View.{Seen};

    ghost Value = { Seen };

    ghost use Rattle.hz_plane.specs.Inside.{seen_of, HoldsPlanes};

    ghost view = { seen_of };

    ghost invariant = { HoldsPlanes };
}

impl<'n> Planes<'n> {
    /// Planes for a network, with no lane loaded. Only this call takes memory.
    pub fn new(alloc: Global, net: &'n Net) -> Result<Planes<'n>, Memory>
        ensures { IfOk result
            (λ planes. planes ≡ record {
              netlist = net.now;
              stage = Loading;
              settles = 0;
              lanes = replicate 512 None;
            }) }
    {
        let circuit = net.circuit();
        let schedule = Schedule::of(alloc, net)?;
        let loads = Loads::new(alloc, circuit.inputs(), circuit.nodes())?;
        let values = unknown_values(alloc, circuit.nodes())?;
        let marks = vec![in alloc; 0; schedule.order.len() / 64 + 1]?;
        let faults = vec![in alloc; None; 512]?;
        Ok(Planes {
            net,
            stage: Stage::Loading,
            settles: 0,
            schedule,
            marks,
            loads,
            values,
            faults,
            unsettled: [0; 8],
        })
    }

    /// The network that the planes are for.
    pub fn net(&self) -> &'n Net
        ensures { result.now ≡ self.now.netlist }
    {
        self.net
    }

    /// Forgets what was loaded.
    pub fn clear(&mut self)
        ensures { self.new ≡ record self.old { stage = Loading; lanes = replicate 512 None } }
    {
        self.stage = Stage::Loading;
        self.loads.clear();
    }

    /// Loads a lane: the new input, and the values that its start lists. The start lists each input, cuts too.
    pub fn load(&mut self, lane: u32, input: &[bool], listed: &[Option<bool>])
        requires stage { self.old.stage ≡ Loading }
        requires lane { lane < 512 }
        requires input { IsInput self.old.netlist input.now }
        requires listed { length listed.now ≡ length self.old.netlist.names }
        requires inputs { ListsAllInputs self.old.netlist listed.now }
        ensures { self.new ≡ record self.old {
          lanes = slice_set self.old.lanes lane
              (Some (record { input = input.now; listed = listed.now }));
        } }
    {
        self.loads.load(lane, input, listed);
    }

    /// Forgets what was loaded, as `clear` does, and loads the first lanes. Each start lists the inputs, and these held
    /// gates. The bits are those of one lane after the other: of each the bits that its start lists for the inputs, and
    /// its new input.
    pub fn load_block(&mut self, lanes: u32, bits: &[bool], held: &[(u32, bool)])
        requires lanes { lanes ≤ 512 }
        requires bits { length bits.now ≡ lanes * (2 * self.old.netlist.inputs) }
        requires held { All (λ node. IsGateNumber self.old.netlist node.0) held.now }
        ensures { self.new ≡ record self.old {
          stage = Loading;
          lanes = block_loads (length self.old.netlist.names) self.old.netlist.inputs held.now
              lanes bits.now;
        } }
    {
        self.stage = Stage::Loading;
        self.loads.load_block(lanes, bits, held);
    }

    /// Fills the starts of all lanes: what their listed values force.
    pub fn complete(&mut self)
        requires stage { self.old.stage ≡ Loading }
        ensures { self.new ≡ record self.old { stage = Completed } }
    {
        let no_gates = self.loads.lists_no_gate();
        let are_evaluated = fill(
            self.net,
            &self.schedule,
            self.marks.as_mut_slice(),
            self.loads.listings(),
            no_gates,
            self.values.as_mut_slice(),
        );
        note_faults(
            self.net,
            self.loads.listings(),
            self.values.as_slice(),
            are_evaluated,
            self.faults.as_mut_slice(),
        );
        self.stage = Stage::Completed;
    }

    /// Why a loaded lane has no stable start: its least open node, or if no node is open its least unstable gate.
    pub fn fault(&self, lane: u32) -> Option<LaneFault>
        requires stage { self.now.stage ≢ Loading }
        requires lane { lane < 512 }
        ensures { (loaded : Loaded) → slice_get self.now.lanes lane ≡ Some (Some loaded)
            → IsLaneFault self.now.netlist loaded.listed result }
    {
        self.faults[lane as usize]
    }

    /// Algorithm A in each lane, from its start under its new input.
    pub fn spread(&mut self)
        requires stage { self.old.stage ≡ Completed }
        ensures { self.new ≡ record self.old { stage = Spread } }
    {
        spread(
            self.net,
            &self.schedule,
            self.marks.as_mut_slice(),
            self.loads.inputs(),
            self.values.as_mut_slice(),
        );
        self.stage = Stage::Spread;
    }

    /// Algorithm B in each lane, from the result of Algorithm A.
    pub fn settle(&mut self)
        requires stage { self.old.stage ≡ Spread }
        ensures { self.new
            ≡ record self.old
            { stage = Settled; settles = min (self.old.settles + 1) (2 ^ 64 - 1) } }
    {
        let are_evaluated = settle(
            self.net,
            &self.schedule,
            self.marks.as_mut_slice(),
            self.loads.inputs(),
            self.values.as_mut_slice(),
        );
        self.unsettled = unsettled_lanes(self.net, self.values.as_slice(), are_evaluated);
        self.stage = Stage::Settled;
        self.settles = self.settles.saturating_add(1);
    }

    /// The value of a variable in a loaded lane that has a stable start: in this start once the starts are completed, in the
    /// result of Algorithm A after `spread`, and of Algorithm B after `settle`. Before, each value is X.
    pub fn get(&self, lane: u32, var: u32) -> Tri
        requires lane { lane < 512 }
        requires var { IsVariable self.now.netlist var }
        ensures lane { (loaded : Loaded) → slice_get self.now.lanes lane ≡ Some (Some loaded)
            → IsLaneValue self.now.stage self.now.netlist loaded var result }
        ensures filled { (loaded : Loaded) → slice_get self.now.lanes lane ≡ Some (Some loaded)
            → IsFilledValue self.now.stage self.now.netlist loaded var result }
        ensures loading { self.now.stage ≡ Loading → result ≡ Unknown }
    {
        match self.stage {
            Stage::Loading => Tri::Unknown,
            _ => self.node_value(lane, var),
        }
    }

    /// The values of a variable in all lanes at once: in each lane that is loaded what `get` says of it.
    pub fn values(&self, var: u32) -> LaneValues
        requires { IsVariable self.now.netlist var }
        ensures lane { (loaded : Loaded) (lane : ℕ) → lane < 512
            → slice_get self.now.lanes lane ≡ Some (Some loaded)
            → IsLaneValue self.now.stage self.now.netlist loaded var (value_in result lane) }
        ensures filled { (loaded : Loaded) (lane : ℕ) → lane < 512
            → slice_get self.now.lanes lane ≡ Some (Some loaded)
            → IsFilledValue self.now.stage self.now.netlist loaded var (value_in result lane) }
        ensures loading { self.now.stage ≡ Loading
            → (lane : ℕ) → lane < 512 → value_in result lane ≡ Unknown }
    {
        match self.stage {
            Stage::Loading => LaneValues::unknown(),
            _ => self.node_values(var),
        }
    }

    /// Whether some variable is X in a loaded lane, inner nodes and wires too.
    pub fn is_unsettled(&self, lane: u32) -> bool
        requires lane { lane < 512 }
        requires stage { self.now.stage ≡ Settled }
        ensures start { (loaded : Loaded) → slice_get self.now.lanes lane ≡ Some (Some loaded)
            → IsUnsettled self.now.netlist loaded result }
        ensures filled { (loaded : Loaded) → slice_get self.now.lanes lane ≡ Some (Some loaded)
            → LeavesUnknown self.now.netlist loaded result }
    {
        has_lane(&self.unsettled, lane)
    }

    // The value of a node, or of the source of a wire.
    #[inline(always)]
    fn node_value(&self, lane: u32, var: u32) -> Tri
        requires lane { lane < 512 }
        requires var { IsVariable self.now.netlist var }
        ensures lane { (loaded : Loaded) → slice_get self.now.lanes lane ≡ Some (Some loaded)
            → self.now.stage ≢ Loading
            → IsLaneValue self.now.stage self.now.netlist loaded var result }
        ensures filled { (loaded : Loaded) → slice_get self.now.lanes lane ≡ Some (Some loaded)
            → self.now.stage ≢ Loading
            → IsFilledValue self.now.stage self.now.netlist loaded var result }
    {
        let pair = &self.values[self.node_of(var) as usize];
        value_by(
            has_lane(pair.zero.as_array(), lane),
            has_lane(pair.one.as_array(), lane),
        )
    }

    // The values of a node, or of the source of a wire.
    #[inline(always)]
    fn node_values(&self, var: u32) -> LaneValues
        requires var { IsVariable self.now.netlist var }
        ensures lane { (loaded : Loaded) (lane : ℕ) → lane < 512
            → slice_get self.now.lanes lane ≡ Some (Some loaded)
            → self.now.stage ≢ Loading
            → IsLaneValue self.now.stage self.now.netlist loaded var (value_in result lane) }
        ensures filled { (loaded : Loaded) (lane : ℕ) → lane < 512
            → slice_get self.now.lanes lane ≡ Some (Some loaded)
            → self.now.stage ≢ Loading
            → IsFilledValue self.now.stage self.now.netlist loaded var (value_in result lane) }
    {
        let pair = &self.values[self.node_of(var) as usize];
        LaneValues {
            zero: pair.zero.to_array(),
            one: pair.one.to_array(),
        }
    }

    // A node itself, or the source of a wire.
    #[inline(always)]
    fn node_of(&self, var: u32) -> u32
        requires { IsVariable self.now.netlist var }
        ensures { IsNodeOf self.now.netlist var result }
    {
        match self.net.kind_of(var) {
            VarKind::Wire { source, .. } => source,
            VarKind::Input { .. } => var,
            VarKind::Gate { .. } => var,
        }
    }
}

// Nodes that are X in each lane.
fn unknown_values(alloc: Global, nodes: u32) -> Result<Vec<Pair>, Memory>
    ensures count { IfOk result (λ values. length values.items ≡ nodes) }
    ensures planes { IfOk result (λ values. AreAllPlanes values.items) }
{
    let unknown = Pair {
        zero: u64x8::splat(u64::MAX),
        one: u64x8::splat(u64::MAX),
    };
    unknown.are_planes();
    let mut values = Vec::with_capacity(alloc, nodes as usize)?;
    for _node in 0..nodes {
        values.push(unknown)?;
    }
    Ok(values)
}
