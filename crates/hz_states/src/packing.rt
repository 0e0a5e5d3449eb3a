//! Eight bits to a byte.
ghost use Rattle.std.specs.Prelude.{◌≡◌, ◌<◌, ◌≤◌, ◌*◌, length, IfOk};
ghost use Rattle.hz_states.specs.Packing.{bit_of, byte_at, byte_of, digit, packed};

use smallvec::SmallVec;
use std::alloc::{AllocError, Global};

// The bytes of a state. Up to 128 bits need no allocation.
pub(crate) type Bytes = SmallVec<u8, 16>;

// A list of bits in bytes.
pub(crate) fn pack(alloc: Global, bits: &[bool]) -> Result<Bytes, AllocError>
    ensures { IfOk result (λ bytes. bytes.items ≡ packed bits.now) }
{
    let count = bits.len().div_ceil(8);
    let mut bytes = SmallVec::with_capacity(alloc, count)?;
    for number in 0..count {
        bytes.push(byte_at(bits, number))?;
    }
    Ok(bytes)
}

// The byte with a number: the bits from eight times this number on, up to eight.
fn byte_at(bits: &[bool], number: usize) -> u8
    requires { 8 * number < length bits.now }
    ensures { result ≡ byte_at bits.now number }
{
    let rest = &bits[8 * number..];
    byte_of(&rest[..rest.len().min(8)])
}

// The bits of a byte, the lowest first.
fn byte_of(bits: &[bool]) -> u8
    requires { length bits.now ≤ 8 }
    ensures { result ≡ byte_of bits.now }
{
    let mut byte = 0;
    for bit in bits.iter().rev() {
        byte = 2 * byte + digit(*bit);
    }
    byte
}

// A bit as a digit.
fn digit(bit: bool) -> u8
    ensures { result ≡ digit bit }
{
    u8::from(bit)
}

// The bit at a place.
pub(crate) fn bit_of(bytes: &[u8], place: usize) -> bool
    requires { place < 8 * length bytes.now }
    ensures { result ≡ bit_of bytes.now place }
{
    (bytes[place / 8] >> (place % 8)) % 2 == 1
}
