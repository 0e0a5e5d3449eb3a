// How long a text may be.

/// The most bytes of a text.
pub const MAX_TEXT: usize = 16_777_216;
