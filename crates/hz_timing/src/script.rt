//! Scripts with assumptions of time as a value.

ghost use Rattle.std.specs.Prelude.{◌≡◌, ◌<◌, length, slice_get, Some};

use hz_orders::Order;
use hz_script::Script;
use std::marker::Model;

/// An assumption of time: an order of two wires of a gate, or a wire that follows its source before anything else happens.
#[derive(Clone, Copy, Debug)]
pub enum Assumption {
    Order(Order),
    Ideal(u32),
}

/// Assumptions of time, and scripts: each begins with a start, and has the changes up to the next start.
#[derive(Debug, Drop)]
pub struct TimedScript {
    pub(crate) assumptions: Vec<Assumption>,
    pub(crate) parts: Vec<Script>,
}

impl Model for TimedScript {
    ghost use Rattle.hz_timing.specs.TimedValue.{TimedScriptOf};

    ghost Value = { TimedScriptOf };

    ghost use Rattle.hz_timing.specs.TimedInside.{timed_script_of};

    ghost view = { timed_script_of };
}

impl TimedScript {
    /// Assumptions and scripts.
    pub(crate) fn of(assumptions: Vec<Assumption>, parts: Vec<Script>) -> TimedScript
        ensures { result ≡ record { assumptions = assumptions.items; parts = parts.items } }
    {
        TimedScript { assumptions, parts }
    }

    /// The assumptions, in the order of the text.
    pub fn assumptions(&self) -> &[Assumption]
        ensures { result.now ≡ self.now.assumptions }
    {
        self.assumptions.as_slice()
    }

    /// The number of scripts.
    pub fn parts(&self) -> usize
        ensures { result ≡ length self.now.parts }
    {
        self.parts.len()
    }

    /// A script. Scripts are numbered from 0.
    pub fn part(&self, number: usize) -> &Script
        requires { number < length self.now.parts }
        ensures { slice_get self.now.parts number ≡ Some result.now }
    {
        &self.parts[number]
    }
}
