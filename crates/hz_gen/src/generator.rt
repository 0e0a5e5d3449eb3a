// The circuit and the script of a number.

ghost use Rattle.std.specs.Prelude.{◌≡◌, ◌+◌, ◌*◌, ◌↔◌, IfOk, IsErrOf};
ghost use Rattle.hz_core.specs.Netlist.{IsCircuit, IsWhole, variable_count};
ghost use Rattle.hz_script.specs.ScriptText.{IsScriptFor};
ghost use Rattle.hz_options.specs.Numbers.{IsDemoNumber};
ghost use Rattle.hz_gen.specs.Demo.{demo_netlist, demo_script};

use crate::circuit::make_circuit;
use crate::fault::GenFault;
use crate::script::make_script;
use hz_core::Circuit;
use hz_options::MAX_DEMO_NUMBER;
use hz_script::Script;
use std::alloc::Global;

/// Makes the circuit of a number, and its script: a start, and the one change that raises the input `go`.
///
/// The circuit has what a simulator finds hard, in any size. A pulse may come at the gate `p`, whose inverter falls late, and
/// a ring of buffers `r1`, `r2`, .. may keep it and oscillate. Beside it stands a chain of multiplexers `m1`, `m2`, .., each
/// with one value at both of its branches and with a static hazard when `go` changes. It takes time linear in the number. The
/// circuit of the greatest number has 198,008 variables.
pub fn make(alloc: Global, n: u32) -> Result<(Circuit, Script), GenFault>
    ensures circuit { IfOk result (λ made. made.0 ≡ demo_netlist n) }
    ensures script { IfOk result (λ made. made.1 ≡ demo_script n) }
    ensures range { IsErrOf result GenFault.Range ↔ (IsDemoNumber n → ⊥) }
    ensures number { IfOk result (λ made. IsDemoNumber n) }
    ensures is_circuit { IfOk result (λ made. IsCircuit made.0) }
    ensures whole { IfOk result (λ made. IsWhole made.0) }
    ensures variables { IfOk result (λ made. variable_count made.0 ≡ 11 * n + 8) }
    ensures fits { IfOk result (λ made. IsScriptFor made.0 made.1) }
{
    if !(1..=MAX_DEMO_NUMBER).contains(&n) {
        return Err(GenFault::Range);
    }
    let Ok(circuit) = make_circuit(alloc, n) else {
        return Err(GenFault::Memory);
    };
    let Ok(script) = make_script(alloc, n, circuit.nodes()) else {
        return Err(GenFault::Memory);
    };
    Ok((circuit, script))
}
