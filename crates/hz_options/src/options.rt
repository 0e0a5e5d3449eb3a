//! The options of a job, and the greatest numbers.

use super::show::Show;

/// The greatest cap on numbers of changes.
pub const MAX_CAP: u64 = 1_000_000;

/// The greatest number that has a generated circuit.
pub const MAX_DEMO_NUMBER: u32 = 18_000;

/// What may stand beside any job. A job that has no use for an option takes no notice of it.
#[derive(Clone, Copy, PartialEq, Eq, Debug)]
pub struct Options {
    /// The most changes of a transient that are counted, 1 to 1,000,000.
    pub cap: u64,
    /// Which variables have a line.
    pub show: Show,
}
