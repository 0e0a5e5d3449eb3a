//! What is done with patterns.

/// What is done with each pattern.
#[derive(Clone, Copy, Debug, PartialEq, Eq)]
pub(crate) enum Job {
    /// Its first bits and the held gates give a start, and its second bits are a change from there.
    Batch,
    /// Its first bits are applied if nothing is known but the held gates, and then its second bits.
    Reset,
}
