//! What a line is made of.

/// What a line is made of.
#[derive(Clone, Copy)]
pub enum Piece<'a> {
    /// Bytes as they are.
    Text(&'a [u8]),
    /// A number in decimal digits.
    Number(u32),
    /// How many items there are, in decimal digits.
    Count(usize),
    /// A number of 64 bits, in decimal digits.
    Long(u64),
}
