// Gates with their pins, one after the other.

ghost use Rattle.std.specs.Prelude.{◌≡◌, ◌∷◌, OnOk, decimal};
ghost use Rattle.hz_gen.specs.BuiltDemo.{MayAddWiredGate, with_wired_gate};

use hz_core::{Circuit, Kind, Memory};
use itoa::Buffer;

// The most bytes of a letter and the digits of a number.
const MAX_NUMBERED: usize = 11;

// Adds a gate whose pins read these nodes.
pub(crate) fn add_connected(
    circuit: &mut Circuit,
    name: &[u8],
    kind: Kind,
    sources: &[u32],
) -> Result<(), Memory>
    requires { MayAddWiredGate circuit.old name.now kind sources.now }
    ensures { OnOk result (circuit.new ≡ with_wired_gate circuit.old name.now kind sources.now) }
{
    let gate = circuit.add_gate(name, kind)?;
    for source in sources {
        circuit.connect(gate, *source)?;
    }
    Ok(())
}

// Adds a gate whose pins read these nodes. Its name is a letter with a number behind it.
pub(crate) fn add_numbered(
    circuit: &mut Circuit,
    letter: u8,
    number: u32,
    kind: Kind,
    sources: &[u32],
) -> Result<(), Memory>
    requires { MayAddWiredGate circuit.old (letter ∷ decimal number) kind sources.now }
    ensures { OnOk result
        (circuit.new ≡ with_wired_gate circuit.old (letter ∷ decimal number) kind sources.now) }
{
    let mut buffer = Buffer::new();
    let digits = buffer.format(number).as_bytes();
    let mut name = [letter; MAX_NUMBERED];
    let end = 1 + digits.len();
    name[1..end].copy_from_slice(digits);
    add_connected(circuit, &name[..end], kind, sources)
}
