//! What was done with planes, and why a lane has no stable start.

/// What was done with the planes.
#[derive(Clone, Copy, Debug, PartialEq, Eq)]
pub enum Stage {
    /// Lanes may be loaded.
    Loading,
    /// The starts are completed.
    Completed,
    /// Algorithm A was made.
    Spread,
    /// Algorithm B was made.
    Settled,
}

/// Why a lane has no stable start.
#[derive(Clone, Copy, Debug, PartialEq, Eq)]
pub enum LaneFault {
    /// The least node that is open.
    Open { gate: u32 },
    /// The least gate that is unstable, if no node is open.
    Unstable { gate: u32 },
}
