//! What can go wrong outside, and where.

use thiserror::Error;

/// Memory was refused, and nothing else went wrong.
#[derive(Clone, Copy, PartialEq, Eq, Debug)]
pub struct Memory;

/// Why a load gave no file.
#[derive(Clone, Copy, PartialEq, Eq, Debug, Error)]
pub enum LoadFault {
    /// The file could not be opened or read.
    #[error("the file could not be read")]
    Failed,
    /// The file has more bytes than were asked for.
    #[error("the file is too long")]
    TooLong,
    /// Memory for the bytes was refused.
    #[error("out of memory")]
    Memory,
}

/// Why a put didn't write its whole piece.
#[derive(Clone, Copy, PartialEq, Eq, Debug, Error)]
pub enum PutFault {
    /// The sink took no more bytes.
    #[error("the output could not be written")]
    Failed,
    /// Memory for the bytes was refused.
    #[error("out of memory")]
    Memory,
}

/// Which of the program's two files a load is for.
#[derive(Clone, Copy, PartialEq, Eq, Debug)]
pub enum Place {
    /// The file that is named first.
    First,
    /// The file that is named second.
    Second,
}
