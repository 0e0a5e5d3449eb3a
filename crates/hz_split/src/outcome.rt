//! What a search comes to.

/// What a search found.
#[derive(Clone, Copy, Debug, PartialEq, Eq)]
pub enum Outcome {
    /// No attempt stops at a stable state.
    Nowhere,
    /// Attempts stop, and all of them at the same stable state.
    OneState,
    /// Two attempts stop at different stable states, so which of the two comes depends on the delays: the race is critical.
    Critical,
}
