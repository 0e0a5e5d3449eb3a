//! Bit planes: completed starts and Algorithms A and B of 512 patterns at once.
//!
//! | Module | What lives in it |
//! |---|---|
//! | `planes` | [`Planes`]: the planes of a network, from loading to the result of Algorithm B |
//! | `values` | [`LaneValues`]: a variable in all lanes at once |
//! | `stage` | [`Stage`]: what was done with the planes; [`LaneFault`]: why a lane has no stable start |
//! | `loads`, `listing` | what each lane was loaded with, and what the lanes list for a node |
//! | `lanes`, `eights` | sets of lanes; eight lanes at once |
//! | `pair`, `rule`, `excited` | the two planes of a node, what a gate does with its excitation, and the excitation itself |
//! | `passes` | completed starts, Algorithm A and Algorithm B, in all lanes |
//! | `forward`, `ones` | gates without feedback, each evaluated once by the lanes in which it is 1 |
//! | `sweep` | gates evaluated in place until none would change |
//! | `faults` | the fault of each lane, and the lanes in which some node is X |
//! | `schedule`, `order`, `classes`, `search`, `readers`, `copies`, `lists` | an order of all gates, and which gates read each node |
#![tactic(auto)]

ghost use Rattle.hz_plane.specs.View.{ListedInputsFill};

mod classes;
mod copies;
mod eights;
mod excited;
mod faults;
mod forward;
mod lanes;
mod listing;
mod lists;
mod loads;
mod ones;
mod order;
mod pair;
mod passes;
mod planes;
mod readers;
mod rule;
mod schedule;
mod search;
mod stage;
mod sweep;
mod values;

pub use planes::Planes;
pub use stage::{LaneFault, Stage};
pub use values::LaneValues;

/// A lane that lists the inputs alone, completed, holds what the inputs bring about from a state of which nothing is known.
#[tactic(auto, using(crate::proofs::UnknownFills::listed_inputs_fill))]
pub fn listed_inputs_fill()
    ensures { ListedInputsFill }
{}
