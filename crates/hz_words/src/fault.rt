//! Why words name no job.

use thiserror::Error;

/// Why words name no job.
#[derive(Clone, Copy, Debug, PartialEq, Eq, Error)]
pub enum WordsFault {
    /// The words are not those of a job.
    #[error("the words name no job")]
    Refused,
    /// Memory ran out.
    #[error("out of memory")]
    Memory,
}
