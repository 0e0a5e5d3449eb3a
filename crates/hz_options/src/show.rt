//! Which variables have a line.

/// Which variables have a line in the report of a change.
#[derive(Clone, Copy, Debug, PartialEq, Eq)]
pub enum Show {
    /// The inputs and the gates.
    Nodes,
    /// The inputs, the gates and the wires into gates.
    All,
}
