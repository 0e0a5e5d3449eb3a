//! The gates that are held.
ghost use Rattle.std.specs.Prelude.{◌≡◌, ◌<◌, ◌^◌, ◌++◌, length, IfOk, OnOk};
ghost use Rattle.hz_text.specs.Printed.{listed_from};
ghost use Rattle.hz_batch.specs.Comes.{held_by};
ghost use Rattle.hz_batch.specs.Held.{held_at_node};

use crate::job::Job;
use hz_core::Memory;
use std::alloc::Global;

// The gates that are held at the start of each pattern. From a start of which nothing else is known
// the first bits make no difference of them: Algorithm A makes every variable X.
pub(crate) fn held_at_start(
    alloc: Global,
    job: Job,
    held: &[Option<bool>],
) -> Result<Vec<(u32, bool)>, Memory>
    requires { length held.now < 2 ^ 32 }
    ensures { IfOk result (λ gates. gates.items ≡ listed_from 0 (held_by job held.now)) }
{
    match job {
        Job::Batch => held_gates(alloc, held),
        Job::Reset => Ok(Vec::new(alloc)),
    }
}

// The gates that are held, with their bits, in the order of the nodes. There is an entry for each
// node.
fn held_gates(alloc: Global, held: &[Option<bool>]) -> Result<Vec<(u32, bool)>, Memory>
    requires { length held.now < 2 ^ 32 }
    ensures { IfOk result (λ gates. gates.items ≡ listed_from 0 held.now) }
{
    let mut gates = Vec::new(alloc);
    for node in 0..held.len() as u32 {
        push_held(&mut gates, node, held[node as usize])?;
    }
    Ok(gates)
}

// Adds a node with its bit, if it is held.
fn push_held(gates: &mut Vec<(u32, bool)>, node: u32, held: Option<bool>) -> Result<(), Memory>
    ensures { OnOk result (gates.new.items ≡ gates.old.items ++ held_at_node node held) }
{
    if let Some(bit) = held {
        gates.push((node, bit))?;
    }
    Ok(())
}
