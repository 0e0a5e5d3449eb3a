//! How states are hashed.
//!
//! The hash is SipHash, which begins with a key. If the key is a digest of the netlist, whoever writes a netlist can't choose one
//! whose states share a hash: another netlist has another key. The digest can be calculated, so this is no defence against who
//! finds, for a given digest, a netlist that has this digest and whose states share a hash by it. Such a search takes long, and
//! nothing else rests on it: the table would be slow, and right.
ghost use Rattle.std.specs.Prelude.{◌≡◌};
ghost use Rattle.hz_states.specs.Hashing.{hasher_of, hashing_with};

use std::fmt;
use std::fmt::{Debug, Formatter, Write};
use std::hash::{BuildHasher, DefaultHasher, Hasher};

/// A hash of states with a key.
#[derive(Clone, Copy)]
pub(crate) struct StateHashing {
    begun: DefaultHasher,
}

impl StateHashing {
    /// The hash with this key.
    pub(crate) fn new(key: u64) -> StateHashing
        ensures { result ≡ hashing_with key }
    {
        let mut begun = DefaultHasher::new();
        begun.write_u64(key);
        StateHashing { begun }
    }
}

impl BuildHasher for StateHashing {
    type Hasher = DefaultHasher;

    ghost build_hasher = { hasher_of };

    fn build_hasher(&self) -> DefaultHasher {
        self.begun
    }
}

impl Debug for StateHashing {
    fn fmt<W: Write>(&self, f: &mut Formatter<W>) -> fmt::Result {
        f.write_str("StateHashing")
    }
}
