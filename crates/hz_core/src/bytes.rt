// Bytes that are read four at once.
ghost use Rattle.std.specs.Prelude.{◌≡◌, ◌+◌, ◌<◌, ◌≤◌, ℕ, length};
ghost use Rattle.std.specs.List.{slice_index_or};
ghost use Rattle.std.specs.Hash.FoldHasher as folding;

/// The four bytes from a place on as one number, the lowest first.
#[inline(always)]
pub(crate) fn four_at(bytes: &[u8], at: usize) -> u64
    requires { at + 4 ≤ length bytes.now }
    ensures value { result ≡ folding.read_u32 bytes.now at }
    ensures bytes { (place : ℕ) → slice_index_or bytes.now place 0 < 256 }
{
    u32::from_le_bytes([bytes[at], bytes[at + 1], bytes[at + 2], bytes[at + 3]]) as u64
}
