// Why a script with assumptions of time is refused.

ghost use Rattle.std.specs.Prelude.{◌≡◌};
ghost use Rattle.hz_timing.specs.TimedFault.{timed_named_line};

use hz_core::Memory;
use hz_text::TextFault;
use thiserror::Error;

/// Why a script with assumptions of time is refused. Lines are counted from 1. The faults of all texts come first, in
/// their order, then the others in the order in which they stand here.
#[derive(Clone, Copy, Debug, PartialEq, Eq, Error)]
pub enum TimedFault {
    /// A fault that any text may have.
    #[error("{0}")]
    Text(TextFault),
    /// The wires of an order are not two wires of one gate.
    #[error("not two wires of one gate in line {line}")]
    Wires { line: u32 },
    /// The number of an order is not a decimal number from 1 to 1000.
    #[error("number in line {line}")]
    Number { line: u32 },
    /// An earlier line states the assumption already.
    #[error("stated twice in line {line}")]
    Again { line: u32 },
}

impl TimedFault {
    /// The line that it names, or 0 if it names none.
    pub fn line(self) -> u32
        ensures { result ≡ timed_named_line self }
    {
        match self {
            TimedFault::Text(fault) => fault.line(),
            TimedFault::Wires { line } | TimedFault::Number { line } | TimedFault::Again { line } =>
                line,
        }
    }
}

impl From<Memory> for TimedFault {
    ghost use Rattle.hz_timing.specs.declared.fault.TimedFault.TheVariants as timed;
    ghost use Rattle.hz_text.specs.declared.fault.TextFault.TheVariants as text;

    ghost from_gives = { λ _ made. made ≡ timed.Text text.Memory };

    fn from(_memory: Memory) -> TimedFault {
        TimedFault::Text(TextFault::Memory)
    }
}

impl From<TextFault> for TimedFault {
    ghost use Rattle.hz_timing.specs.declared.fault.TimedFault.TheVariants as timed;

    ghost from_gives = { λ fault made. made ≡ timed.Text fault };

    fn from(fault: TextFault) -> TimedFault {
        TimedFault::Text(fault)
    }
}
