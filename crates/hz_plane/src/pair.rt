//! Two bit planes of one node.
ghost use Rattle.std.specs.Prelude.{◌≡◌, ◌↔◌, IsTrue};
ghost use Rattle.hz_plane.specs.Bits.{IsPlane, ArePlanes};
ghost use Rattle.hz_plane.specs.Pairs.{and_pair, or_pair, xor_pair, complement_pair, narrowed_pair, widened_pair, AreSame, AreZero};

use std::simd::prelude::*;

/// Of 512 lanes, where a node can be 0 and where it can be 1.
#[derive(Clone, Copy, Debug)]
pub(crate) struct Pair {
    pub(crate) zero: u64x8,
    pub(crate) one: u64x8,
}

impl Pair {
    #[inline(always)]
    pub(crate) fn and(self, other: Pair) -> Pair
        ensures { result ≡ and_pair self other }
    {
        Pair {
            zero: self.zero | other.zero,
            one: self.one & other.one,
        }
    }

    #[inline(always)]
    pub(crate) fn or(self, other: Pair) -> Pair
        ensures { result ≡ or_pair self other }
    {
        Pair {
            zero: self.zero & other.zero,
            one: self.one | other.one,
        }
    }

    #[inline(always)]
    pub(crate) fn xor(self, other: Pair) -> Pair
        ensures { result ≡ xor_pair self other }
    {
        Pair {
            zero: (self.zero & other.zero) | (self.one & other.one),
            one: (self.zero & other.one) | (self.one & other.zero),
        }
    }

    #[inline(always)]
    pub(crate) fn complement(self) -> Pair
        ensures { result ≡ complement_pair self }
    {
        Pair {
            zero: self.one,
            one: self.zero,
        }
    }

    /// In the lanes where this is X the other pair, in all others this.
    #[inline(always)]
    pub(crate) fn narrowed(self, excited: Pair) -> Pair
        ensures { result ≡ narrowed_pair self excited }
    {
        Pair {
            zero: self.zero & (excited.zero | !self.one),
            one: self.one & (excited.one | !self.zero),
        }
    }

    /// The join of both, lane by lane.
    #[inline(always)]
    pub(crate) fn widened(self, excited: Pair) -> Pair
        ensures { result ≡ widened_pair self excited }
    {
        Pair {
            zero: self.zero | excited.zero,
            one: self.one | excited.one,
        }
    }

    /// Both have eight words of 64 bits. It computes nothing.
    #[inline(always)]
    pub(crate) fn are_planes(self)
        ensures { ArePlanes self }
    {
        is_plane(self.zero);
        is_plane(self.one);
    }

    #[inline(always)]
    pub(crate) fn is_same(self, other: Pair) -> bool
        ensures same { IsTrue result ↔ AreSame self other }
        ensures own { ArePlanes self }
        ensures other { ArePlanes other }
    {
        are_same(self.zero, other.zero, self.one, other.one)
    }
}

/// A vector has eight words of 64 bits. It computes nothing.
#[inline(always)]
pub(crate) fn is_plane(words: u64x8)
    ensures { IsPlane words }
{}

// Whether two vectors are the same, and two others.
#[inline(always)]
fn are_same(words: u64x8, others: u64x8, ones: u64x8, more: u64x8) -> bool
    ensures same { IsTrue result ↔ ((words ≡ others) × (ones ≡ more)) }
    ensures words { IsPlane words }
    ensures others { IsPlane others }
    ensures ones { IsPlane ones }
    ensures more { IsPlane more }
{
    is_zero((words ^ others) | (ones ^ more))
}

/// Whether no lane is set.
#[inline(always)]
pub(crate) fn is_zero(words: u64x8) -> bool
    ensures { IsTrue result ↔ AreZero words }
{
    words.reduce_or() == 0
}
