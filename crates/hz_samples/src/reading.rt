//! What tests read from a text: circuits, their networks, and run texts.
ghost use Rattle.std.specs.Prelude.{IfOk};
ghost use Rattle.hz_core.specs.Netlist.{IsWhole};
ghost use Rattle.hz_run_text.specs.RunText.{IsRunTextFor};

use hz_core::Circuit;
use hz_line::MAX_TEXT;
use hz_net::Net;
use hz_run_text::RunText;
use std::alloc::Global;
use std::test::Fail;

/// The latch of two NOR gates.
pub const LATCH: &str =
    "INPUT(r)\nINPUT(s)\nOUTPUT(q)\nOUTPUT(qb)\nq = NOR(r, qb)\nqb = NOR(s, q)\n";

/// A gate that reads itself, and a pulse that it may keep.
pub const HOLDING: &str = "INPUT(x)\np = AND(x, n)\nn = NOT(x)\ny = OR(p, y)\n";

/// A multiplexer.
pub const MULTIPLEXER: &str =
    "INPUT(s)\nINPUT(x)\nINPUT(y)\nn = NOT(s)\na = AND(s, x)\nb = AND(n, y)\nz = OR(a, b)\n";

/// Two wires of one source into one gate.
pub const TWO_WIRES: &str = "INPUT(x)\ny = XOR(x, x)\n";

/// The circuit of a netlist.
pub fn circuit_of(alloc: Global, text: &str) -> Result<Circuit, Fail>
    ensures { IfOk result IsWhole }
{
    if text.len() > MAX_TEXT {
        return Err("a long text".into());
    }
    Ok(hz_bench::read(alloc, text.as_bytes())?)
}

/// The network of a netlist.
pub fn net_of(alloc: Global, text: &str) -> Result<Net, Fail> {
    Ok(Net::build(alloc, circuit_of(alloc, text)?)?)
}

/// A run text of a network.
pub fn runs_of(alloc: Global, net: &Net, text: &str) -> Result<RunText, Fail>
    ensures { IfOk result (IsRunTextFor net.now) }
{
    if text.len() > MAX_TEXT {
        return Err("a long text".into());
    }
    Ok(hz_run_text::read_run(alloc, net, text.as_bytes())?)
}
