// The script of a number.

ghost use Rattle.std.specs.Prelude.{◌≡◌, ◌*◌, ◌+◌, IfOk};
ghost use Rattle.hz_options.specs.Numbers.{IsDemoNumber};
ghost use Rattle.hz_gen.specs.Demo.{demo_script};

use crate::node::{GO, X, ring_gate};
use hz_core::Memory;
use hz_script::Script;
use std::alloc::Global;

// Makes the script of a number, for its circuit's nodes: the ring at rest, and `go` rises.
pub(crate) fn make_script(alloc: Global, n: u32, nodes: u32) -> Result<Script, Memory>
    requires number { IsDemoNumber n }
    requires nodes { nodes ≡ 4 * n + 4 }
    ensures { IfOk result (λ script. script ≡ demo_script n) }
{
    let mut script = Script::new(alloc, nodes)?;
    script.list(GO, false);
    script.list(X, true);
    script.list(ring_gate(n), false);
    script.add_change(&[(GO, true)])?;
    Ok(script)
}
