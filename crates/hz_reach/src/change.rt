//! A change of a circuit.
use hz_net::Net;

/// A change: a start of a network that is stable under its own inputs, and the input that comes.
#[derive(Clone, Copy)]
pub struct Change<'a> {
    /// The network of the circuit.
    pub net: &'a Net,
    /// The state in which the change begins.
    pub start: &'a [bool],
    /// The new input.
    pub input: &'a [bool],
}
