//! Why the text of patterns was not written.

use thiserror::Error;

/// Why the text of patterns was not written.
#[derive(Clone, Copy, Debug, PartialEq, Eq, Error)]
pub enum BatchFault {
    /// The sink took no more bytes.
    #[error("the output could not be written")]
    Sink,
    /// There was no memory.
    #[error("out of memory")]
    Memory,
}
