//! Names as the keys of tables.
//!
//! A name is fed to its hasher word by word, so that each word is joined with the state before it is multiplied. By one write the
//! hasher would multiply each second word of a long name by another one, which brings that product to 0 if it is chosen well.
ghost use Rattle.std.specs.Prelude.{◌≡◌, IfOk, fold};
ghost use Rattle.std.specs.Cmp.Lexicographic.{bytes_decides, nat_list_eq_equiv};
ghost use Rattle.std.specs.Cmp.{partial_equiv_from_equiv};
ghost use Rattle.std.specs.Str.{bytes_eq};
ghost use Rattle.std.proofs.Common.{ap};
ghost use Rattle.hz_core.specs.NameHash.{words_of};

use crate::Memory;
use crate::bytes::four_at;
use indexmap::Equivalent;
use smallvec::SmallVec;
use std::alloc::Global;
use std::hash::{Hash, Hasher};
use std::marker::Model;

/// The most bytes of a name.
pub const MAX_NAME: usize = 255;

/// A name that borrows its bytes.
#[derive(Drop)]
pub struct Name<'a> {
    bytes: &'a [u8],
}

impl<'a> Model for Name<'a> {
    ghost use Rattle.std.specs.Prelude.{ℕ, List};

    ghost Value = { List ℕ };

    ghost view = { λ name. name.bytes.now };
}

impl<'a> Name<'a> {
    /// The name with these bytes.
    #[inline(always)]
    pub fn new(bytes: &'a [u8]) -> Name<'a>
        ensures { result ≡ bytes.now }
    {
        Name { bytes }
    }

    /// The bytes of the name.
    #[inline(always)]
    pub fn bytes(&self) -> &'a [u8]
        ensures { result.now ≡ self.now }
    {
        self.bytes
    }
}

impl<'a> PartialEq for Name<'a> {
    ghost eq = { bytes_eq };

    ghost laws = { partial_equiv_from_equiv nat_list_eq_equiv };

    #[inline(always)]
    fn eq(&self, other: &Self) -> bool {
        same_name(self.bytes, other.bytes)
    }
}

impl<'a> Eq for Name<'a> {
    ghost laws = { nat_list_eq_equiv };
}

impl<'a> Hash for Name<'a> {
    ghost hash_input = { words_of };

    ghost respects_eq = { λ name other same. ap words_of ((bytes_decides name other).0 same) };

    #[inline(always)]
    fn hash<H: Hasher>(&self, state: &mut H) {
        write_words(self.bytes, state);
    }
}

// A name that a circuit keeps. Most names are short, and need no allocation.
#[derive(Debug, Drop)]
pub(crate) struct NodeName {
    bytes: SmallVec<u8, 16>,
}

impl Model for NodeName {
    ghost use Rattle.std.specs.Prelude.{ℕ, List};

    ghost Value = { List ℕ };

    ghost view = { λ name. name.bytes.items };
}

impl NodeName {
    pub(crate) fn new(alloc: Global, name: &[u8]) -> Result<NodeName, Memory>
        ensures { IfOk result (λ kept. kept ≡ name.now) }
    {
        let Ok(bytes) = SmallVec::from_slice(alloc, name) else {
            return Err(Memory);
        };
        Ok(NodeName { bytes })
    }

    #[inline(always)]
    pub(crate) fn as_slice(&self) -> &[u8]
        ensures { result.now ≡ self.now }
    {
        self.bytes.as_slice()
    }
}

impl PartialEq for NodeName {
    ghost eq = { bytes_eq };

    ghost laws = { partial_equiv_from_equiv nat_list_eq_equiv };

    fn eq(&self, other: &Self) -> bool {
        same_name(self.as_slice(), other.as_slice())
    }
}

impl Eq for NodeName {
    ghost laws = { nat_list_eq_equiv };
}

impl Hash for NodeName {
    ghost hash_input = { words_of };

    ghost respects_eq = { λ name other same. ap words_of ((bytes_decides name other).0 same) };

    #[inline(always)]
    fn hash<H: Hasher>(&self, state: &mut H) {
        write_words(self.as_slice(), state);
    }
}

// A circuit's names are sought by names that borrow their bytes.
impl<'a> Equivalent<NodeName> for &Name<'a> {
    ghost equivalent = { λ name. bytes_eq name.now };

    ghost respects_hash = { λ name kept same. ap words_of ((bytes_decides name.now kept).0 same) };

    ghost respects_eq = { λ name. nat_list_eq_equiv.congr name.now };

    #[inline(always)]
    fn equivalent(&self, key: &NodeName) -> bool {
        same_name(self.bytes, key.as_slice())
    }
}

// Feeds the words of a name to a hasher.
#[inline(always)]
fn write_words<H: Hasher>(name: &[u8], state: &mut H)
    ensures { state.new ≡ fold H.write state.old (words_of name.now) }
{
    let mut rest = name;
    while rest.len() > 9 {
        let (word, left) = rest.split_at(8);
        state.write(word);
        rest = left;
    }
    if rest.len() < 3 {
        state.write(rest);
    } else {
        let (word, last) = rest.split_at(rest.len() - 1);
        state.write(word);
        state.write(last);
    }
}

/// Whether two names are the same. Most have four to eight bytes, which are compared four at once.
#[inline(always)]
pub fn same_name(name: &[u8], other: &[u8]) -> bool
    ensures { result ≡ bytes_eq name.now other.now }
{
    let len = name.len();
    if len < 4 || len > 8 || len != other.len() {
        return name == other;
    }
    four_at(name, 0) == four_at(other, 0) && four_at(name, len - 4) == four_at(other, len - 4)
}
