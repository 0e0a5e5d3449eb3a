// Why a text is no netlist.

use thiserror::Error;

/// A fault of a netlist's text. Faults are numbered in this order, 1 to 3 and 5 to 9; if several
/// stand in a text, the answer is one with the least number and, among those, on the least line.
/// Lines are counted from 1.
#[derive(Clone, Copy, Debug, PartialEq, Eq, Error)]
pub enum BenchFault {
    /// The line has tokens or a forbidden byte, and is no statement.
    #[error("line {line}: form")]
    Form { line: u32 },
    /// A name of more than 255 bytes.
    #[error("line {line}: name too long")]
    Name { line: u32 },
    /// A gate whose kind is none.
    #[error("line {line}: unknown kind")]
    KindUnknown { line: u32 },
    /// A name that an earlier line defines; `first` is the earliest such line.
    #[error("line {line}: defined twice, first on line {first}")]
    Twice { line: u32, first: u32 },
    /// A gate with a number of pins that its kind does not allow, or a flip-flop that does not read
    /// one name.
    #[error("line {line}: pins {count}")]
    Pins { line: u32, count: u32 },
    /// A name that no line defines.
    #[error("line {line}: undefined name")]
    Undefined { line: u32 },
    /// More than 200,000 inputs, flip-flops, gates and pins of gates.
    #[error("variables {variables}")]
    TooMany { variables: u32 },
    /// Memory ran out.
    #[error("memory ran out")]
    Memory,
}
