// The size of a network, as a run text has it.

ghost use Rattle.std.specs.Prelude.{◌≡◌, ◌∷◌, [], Some, MatchResult};
ghost use Rattle.hz_line.specs.Reading.{by_tokens, IsUnread};
ghost use Rattle.hz_line.specs.Token.{WordOf, tokens_of};
ghost use Rattle.hz_run_text.specs.RunStatement.{size_by};
ghost use Rattle.hz_run_text.specs.RunSize.{size_of, difference};

use crate::number::read_count;
use hz_core::Circuit;
use hz_line::{StatementFault, first_word, is_blank_line};

/// How many inputs, gates and wires there are.
#[derive(Clone, Copy, Debug)]
pub(crate) struct Size {
    pub(crate) inputs: u32,
    pub(crate) gates: u32,
    pub(crate) wires: u32,
}

// The size that the tokens of a line are: three numbers.
pub(crate) fn read_size(line: &[u8]) -> Result<Size, StatementFault>
    ensures { MatchResult result
        (λ size. by_tokens size_by (tokens_of line.now) ≡ Some size)
        (λ why. IsUnread (by_tokens size_by (tokens_of line.now)) why) }
{
    let Some((inputs, later)) = first_word(line) else {
        return Err(StatementFault::Form);
    };
    let Some((gates, last)) = first_word(later) else {
        return Err(StatementFault::Form);
    };
    let Some((wires, after)) = first_word(last) else {
        return Err(StatementFault::Form);
    };
    if !is_blank_line(after) {
        return Err(StatementFault::Form);
    }
    read_counts(inputs, gates, wires)
}

// The size with the counts that these words are.
fn read_counts(inputs: &[u8], gates: &[u8], wires: &[u8]) -> Result<Size, StatementFault>
    ensures { MatchResult result
        (λ size. size_by (WordOf inputs.now ∷ WordOf gates.now ∷ WordOf wires.now ∷ [])
        ≡ Some size)
        (λ why. IsUnread
        (size_by (WordOf inputs.now ∷ WordOf gates.now ∷ WordOf wires.now ∷ [])) why) }
{
    match (read_count(inputs), read_count(gates), read_count(wires)) {
        (Some(inputs), Some(gates), Some(wires)) => Ok(Size {
            inputs,
            gates,
            wires,
        }),
        _ => Err(StatementFault::Form),
    }
}

// The size of a circuit's network.
pub(crate) fn size_of(circuit: &Circuit) -> Size
    ensures { result ≡ size_of circuit.now }
{
    let inputs = circuit.inputs();
    let nodes = circuit.nodes();
    Size {
        inputs,
        gates: nodes - inputs,
        wires: circuit.variables() - nodes,
    }
}

// The first count in which two sizes differ, as each has it.
pub(crate) fn difference(told: Size, real: Size) -> Option<(u32, u32)>
    ensures { result ≡ difference told real }
{
    if told.inputs != real.inputs {
        Some((told.inputs, real.inputs))
    } else if told.gates != real.gates {
        Some((told.gates, real.gates))
    } else if told.wires != real.wires {
        Some((told.wires, real.wires))
    } else {
        None
    }
}
