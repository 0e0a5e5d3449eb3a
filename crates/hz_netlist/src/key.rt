//! Names as the keys of the table of a text.
//!
//! The names that a gate reads stand far apart in a large text. A key has the first four bytes of its
//! name and the last four, so that a name of four to eight bytes is compared without the text.
//! Without them a netlist of 58,000 gates that read others far away takes 1.2 times as long.
ghost use Rattle.std.specs.Prelude.{◌≡◌, ◌+◌, ◌<◌, ◌≤◌, ℕ, length};
ghost use Rattle.std.specs.Cmp.Lexicographic.{bytes_decides, nat_list_eq_equiv};
ghost use Rattle.std.specs.Cmp.{partial_equiv_from_equiv};
ghost use Rattle.std.specs.Hash.FoldHasher.{read_u32};
ghost use Rattle.std.specs.List.{slice_index_or};
ghost use Rattle.std.specs.Str.{bytes_eq};
ghost use Rattle.std.proofs.Common.{ap};
ghost use Rattle.hz_core.specs.NameHash.{words_of};

use hz_core::Name;
use std::hash::{Hash, Hasher};
use std::marker::Model;

/// A name that borrows its bytes, with its first four and its last four beside it, if it has four.
#[derive(Drop)]
pub(crate) struct Key<'a> {
    bytes: &'a [u8],
    first: u32,
    last: u32,
}

impl<'a> Model for Key<'a> {
    ghost use Rattle.std.specs.Prelude.{ℕ, List};
    ghost use Rattle.hz_netlist.specs.Key.{HasEnds};

    ghost Value = { List ℕ };

    ghost view = { λ key. key.bytes.now };

    ghost invariant = { λ key. HasEnds key.bytes.now key.first key.last };
}

impl<'a> Key<'a> {
    /// The key of the name with these bytes.
    #[inline(always)]
    pub(crate) fn new(bytes: &'a [u8]) -> Key<'a>
        ensures { result ≡ bytes.now }
    {
        if bytes.len() < 4 {
            return Key {
                bytes,
                first: 0,
                last: 0,
            };
        }
        Key {
            bytes,
            first: four_at(bytes, 0),
            last: four_at(bytes, bytes.len() - 4),
        }
    }

    /// The bytes of the name.
    #[inline(always)]
    pub(crate) fn bytes(&self) -> &'a [u8]
        ensures { result.now ≡ self.now }
    {
        self.bytes
    }
}

impl<'a> PartialEq for Key<'a> {
    ghost eq = { bytes_eq };

    ghost laws = { partial_equiv_from_equiv nat_list_eq_equiv };

    #[inline(always)]
    fn eq(&self, other: &Self) -> bool {
        let len = self.bytes.len();
        if len < 4 || len > 8 || len != other.bytes.len() {
            return self.bytes == other.bytes;
        }
        self.first == other.first && self.last == other.last
    }
}

impl<'a> Eq for Key<'a> {
    ghost laws = { nat_list_eq_equiv };
}

impl<'a> Hash for Key<'a> {
    ghost hash_input = { words_of };

    ghost respects_eq = { λ name other same. ap words_of ((bytes_decides name other).0 same) };

    #[inline(always)]
    fn hash<H: Hasher>(&self, state: &mut H) {
        Name::new(self.bytes).hash(state);
    }
}

// The four bytes from a place on as one number, the lowest first.
#[inline(always)]
fn four_at(bytes: &[u8], at: usize) -> u32
    requires { at + 4 ≤ length bytes.now }
    ensures value { result ≡ read_u32 bytes.now at }
    ensures bytes { (place : ℕ) → slice_index_or bytes.now place 0 < 256 }
{
    u32::from_le_bytes([bytes[at], bytes[at + 1], bytes[at + 2], bytes[at + 3]])
}
