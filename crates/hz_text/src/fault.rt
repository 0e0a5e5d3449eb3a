// Why a text is refused.

ghost use Rattle.std.specs.Prelude.{◌≡◌, None, MatchResult, IsSomeAnd};
ghost use Rattle.hz_text.specs.Fault.{named_line};

use hz_core::Memory;
use hz_line::StatementsFault;
use thiserror::Error;

/// Why a text is refused. Lines are counted from 1. The faults are numbered from 1 in the order in which they stand here;
/// if several stand in a text, the answer has the least number and, among those, the least line or node.
#[derive(Clone, Copy, Debug, PartialEq, Eq, Error)]
pub enum TextFault {
    /// The line is no statement.
    #[error("form in line {line}")]
    Form { line: u32 },
    /// A name that is assigned in the line is no node or, if only inputs may be assigned, no input or, if only gates may be,
    /// no gate; or a step in the line names what is no variable.
    #[error("unknown in line {line}")]
    Unknown { line: u32 },
    /// A name is assigned twice in the line.
    #[error("twice in line {line}")]
    Twice { line: u32 },
    /// The start has no value for this node, or the input line of a run text has none for this input.
    #[error("missing node {node}")]
    Missing { node: u32 },
    /// A word that is assigned in the line is neither `0` nor `1`; or a word of the pattern is not a bit for each input.
    #[error("bit in line {line}")]
    Bit { line: u32 },
    /// The line breaks the order of statements. The line is 0 if a script or a run text has no statement, and if a run text in
    /// order stops before its end.
    #[error("order in line {line}")]
    Order { line: u32 },
    /// The line passes a limit.
    #[error("too many in line {line}")]
    TooMany { line: u32 },
    /// Memory ran out.
    #[error("out of memory")]
    Memory,
    /// The line with the size of a run text's network has a count that is not the network's: `told` is the first such of
    /// the inputs, the gates and the wires, `real` the network's own.
    #[error("{told}, not {real}, in line {line}")]
    Mismatch { line: u32, told: u32, real: u32 },
}

impl TextFault {
    /// The line that it names, or 0 if it names none.
    pub fn line(self) -> u32
        ensures { result ≡ named_line self }
    {
        match self {
            TextFault::Form { line }
            | TextFault::Unknown { line }
            | TextFault::Twice { line }
            | TextFault::Bit { line }
            | TextFault::Order { line }
            | TextFault::TooMany { line }
            | TextFault::Mismatch { line, .. } => line,
            TextFault::Missing { .. } | TextFault::Memory => 0,
        }
    }
}

/// The first count of a network's size that a text has wrong.
#[derive(Clone, Copy, Debug)]
pub struct Mismatch {
    pub line: u32,
    pub told: u32,
    pub real: u32,
}

impl From<Memory> for TextFault {
    ghost use Rattle.hz_text.specs.declared.fault.TextFault.TheVariants as fault;

    ghost from_gives = { λ _ made. made ≡ fault.Memory };

    fn from(_memory: Memory) -> TextFault {
        TextFault::Memory
    }
}

impl From<StatementsFault> for TextFault {
    ghost use Rattle.hz_text.specs.Rules.{fault_by};

    ghost from_gives = { λ why made. made ≡ fault_by why };

    fn from(why: StatementsFault) -> TextFault {
        match why {
            StatementsFault::Form { line } => TextFault::Form { line },
            StatementsFault::Memory => TextFault::Memory,
        }
    }
}

// Refuses a text in which this fault was found, at some place.
pub(crate) fn refuse<P: Copy, F: FnOnce(P) -> TextFault>(
    found: Option<P>,
    fault: F,
) -> Result<(), TextFault>
    requires { F.IsAlwaysCallable fault }
    ensures { MatchResult result
        (λ _. found ≡ None)
        (λ refused. IsSomeAnd found (λ place. F.post fault place refused)) }
{
    match found {
        Some(place) => Err(fault(place)),
        None => Ok(()),
    }
}
