//! Scripts as a value.

ghost use Rattle.std.specs.Prelude.{◌≡◌, ◌<◌, ◌++◌, ◌∷◌, [], length, replicate, slice_get, slice_set, Some, None, IfOk, OnOk, OnErr};
ghost use Rattle.hz_text.specs.Bits.{IsChange};
ghost use Rattle.hz_script.specs.ScriptValue.{IsScript};
ghost use Rattle.hz_script.specs.Limits.{most_changes};

use hz_core::Memory;
use hz_lists::part_at;
use std::alloc::Global;
use std::marker::Model;

/// The most changes of a script.
pub const MAX_CHANGES: usize = 10_000;

/// A start of a circuit, and changes of its inputs that follow one another.
///
/// The start lists nodes with their bits. A change assigns bits to inputs; an input that it does not assign keeps its
/// bit.
#[derive(Debug, Drop)]
pub struct Script {
    start: Vec<Option<bool>>,
    assignments: Vec<(u32, bool)>,
    ends: Vec<u32>,
}

impl Model for Script {
    ghost use Rattle.hz_script.specs.ScriptValue.{ScriptOf};

    ghost Value = { ScriptOf };

    ghost use Rattle.hz_script.specs.Inside.{script_of, HoldsScript};

    ghost view = { script_of };

    ghost invariant = { HoldsScript };
}

impl Script {
    /// A script of a circuit with that many nodes, which lists none of them and has no change.
    pub fn new(alloc: Global, nodes: u32) -> Result<Script, Memory>
        ensures start { IfOk result (λ script. script.start ≡ replicate nodes None) }
        ensures changes { IfOk result (λ script. script.changes ≡ []) }
    {
        let start = vec![in alloc; None; nodes as usize]?;
        Ok(Script::of(alloc, start))
    }

    /// A script that lists these nodes with their bits, and has no change.
    pub fn of(alloc: Global, start: Vec<Option<bool>>) -> Script
        ensures { result ≡ record { start = start.items; changes = [] } }
    {
        Script {
            start,
            assignments: Vec::new(alloc),
            ends: Vec::new(alloc),
        }
    }

    /// Lists a node with its bit at the start, in place of the bit that it had.
    pub fn list(&mut self, node: u32, bit: bool)
        requires { node < length self.old.start }
        ensures { self.new ≡ record self.old { start = slice_set self.old.start node (Some bit) } }
    {
        self.start[node as usize] = Some(bit);
    }

    /// Adds a change after the last one: numbers of inputs with their bits, in any order.
    pub fn add_change(&mut self, change: &[(u32, bool)]) -> Result<(), Memory>
        requires change { IsChange (length self.old.start) change.now }
        requires few { length self.old.changes < most_changes }
        ensures ok { OnOk result
            (self.new ≡ record self.old { changes = self.old.changes ++ change.now ∷ [] }) }
        ensures err { OnErr result (self.new ≡ self.old) }
    {
        self.ends.reserve(1)?;
        let Ok(end) = u32::try_from(self.assignments.len() + change.len()) else {
            return Err(Memory);
        };
        self.assignments.extend_from_slice(change)?;
        self.ends.push_reserved(end);
        Ok(())
    }

    /// For each node, in order, its bit at the start, if it is listed.
    pub fn start(&self) -> &[Option<bool>]
        ensures start { result.now ≡ self.now.start }
        ensures script { IsScript self.now }
    {
        self.start.as_slice()
    }

    /// The number of changes.
    pub fn changes(&self) -> usize
        ensures changes { result ≡ length self.now.changes }
        ensures script { IsScript self.now }
    {
        self.ends.len()
    }

    /// The inputs that a change assigns, with their bits. Changes are numbered from 0.
    pub fn change(&self, number: usize) -> &[(u32, bool)]
        requires { number < length self.now.changes }
        ensures change { slice_get self.now.changes number ≡ Some result.now }
        ensures script { IsScript self.now }
    {
        part_at(self.assignments.as_slice(), self.ends.as_slice(), number)
    }
}
