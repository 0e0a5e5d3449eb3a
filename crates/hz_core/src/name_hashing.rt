//! How names are hashed.
//!
//! The hash is the library's fold. Anyone can calculate it without a key, so whoever writes a netlist could choose names that share
//! it. With a digest of the whole text as the key, other names are another text, which has another key. The digest is SipHash. Its
//! own key is public, so this is no defence against who can make a text for a given digest, around names that share the hash by it.
//! Such a text takes long, and nothing else rests on it.
//!
//! The names of a netlist come mostly in rows, as `g120` to `g129`. The library's table begins its search by the lowest bits of a
//! hash, and tells names of one place by the highest. So the last byte is not folded, and its lowest two bits are the highest of the
//! hash: four names of a row lie in one group of the table, which the first of them brings into the cache. With that last byte folded,
//! a netlist of 16 MiB that is refused takes 1.25 times as long.
ghost use Rattle.std.specs.Prelude.{◌≡◌};
ghost use Rattle.hz_core.specs.NameHash.{hasher_of, hashing_of_text, plain_hashing, row_hash, with_word};

use std::fmt;
use std::fmt::{Debug, Formatter, Write};
use std::hash::{BuildHasher, DefaultHasher, FoldHasher, Hasher};

// What the lowest two bits of a last byte are multiplied by, and the others: the first come to be the highest of 32 bits, the others
// change the place at which a search begins.
const HIGH: u64 = 0x4000_0000;

const SPREAD: u64 = 0x9e37_79b4;

/// A hash of names: the plain one, or one with a key.
#[derive(Clone, Copy)]
pub struct NameHashing {
    begun: FoldHasher,
}

impl NameHashing {
    /// The hash without a key.
    pub fn plain() -> NameHashing
        ensures { result ≡ plain_hashing }
    {
        NameHashing {
            begun: FoldHasher::default(),
        }
    }

    /// The hash with a digest of this text as the key.
    pub fn of_text(text: &[u8]) -> NameHashing
        ensures { result ≡ hashing_of_text text.now }
    {
        let mut digest = DefaultHasher::new();
        digest.write(text);
        let mut begun = FoldHasher::default();
        begun.write_u64(digest.finish());
        NameHashing { begun }
    }
}

impl BuildHasher for NameHashing {
    type Hasher = NameHasher;

    ghost build_hasher = { hasher_of };

    #[inline(always)]
    fn build_hasher(&self) -> NameHasher {
        NameHasher {
            front: self.begun,
            last: 0,
        }
    }
}

/// What hashes a name: the words before its last byte are folded, and a byte that is written alone is the last one.
#[derive(Clone, Copy)]
pub struct NameHasher {
    front: FoldHasher,
    last: u8,
}

impl Hasher for NameHasher {
    ghost write = { with_word };

    ghost finish = { row_hash };

    #[inline(always)]
    fn write(&mut self, bytes: &[u8]) {
        if bytes.len() == 1 {
            self.last = bytes[0];
        } else {
            self.front.write(bytes);
        }
    }

    // Four names of a row begin at one place.
    #[inline(always)]
    fn finish(&self) -> u64 {
        let last = self.last as u64;
        self.front.finish() ^ (last % 4 * HIGH) ^ (last / 4 * SPREAD)
    }
}

impl Debug for NameHashing {
    fn fmt<W: Write>(&self, f: &mut Formatter<W>) -> fmt::Result {
        f.write_str("NameHashing")
    }
}
