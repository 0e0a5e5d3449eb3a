//! Circuits that are made from a number: a ring that oscillates beside a chain of hazards.
//!
//! | Module | What lives in it |
//! |---|---|
//! | `generator` | [`make`]: the circuit and the script of a number |
//! | `circuit` | the circuit, part by part |
//! | `gate` | a gate with its pins |
//! | `node` | the numbers of the nodes that others read |
//! | `script` | the script |
//! | `fault` | [`GenFault`]: why no circuit is made |
#![tactic(auto)]

ghost use Rattle.hz_gen.specs.Starts.{DemoStarts};

mod circuit;
mod fault;
mod gate;
mod generator;
mod node;
mod script;

pub use fault::GenFault;
pub use generator::make;

/// The script of every number has a start that is accepted on its circuit.
pub fn demo_starts()
    ensures { DemoStarts }
{}
