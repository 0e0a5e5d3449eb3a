use hz_core::Kind;

/// What a variable of the complete network is.
#[derive(Clone, Copy, Debug, PartialEq, Eq)]
pub enum VarKind {
    /// An input, by its place in the external input.
    Input { number: u32 },
    /// A gate.
    Gate { kind: Kind },
    /// The wire into a pin of a gate, counted from 0, from the node `source`.
    Wire { gate: u32, pin: u32, source: u32 },
}
