//! What the lanes list for a node.
ghost use Rattle.std.specs.Prelude.{◌≡◌, ◌≢◌, ℕ, ◌/◌, ◌%◌, ◌<◌, Bool, None, Some, IsTrue, false, true};
ghost use Rattle.hz_core.specs.Ternary.{tri_of};
ghost use Rattle.hz_plane.specs.Bits.{ArePlanes, HasValue, has_lane};
ghost use Rattle.hz_plane.specs.EightBits.{byte_has};
ghost use Rattle.hz_plane.specs.Forward.{IsKnownPair};
ghost use Rattle.hz_plane.specs.Lanes.{listed_value};
ghost use Rattle.hz_plane.specs.Loads.{listed_in};

use crate::lanes::{join_eight, join_lane, put_lane, put_lanes};
use crate::pair::{Pair, is_plane, is_zero};
use std::simd::prelude::*;

/// The lanes that list 0 for a node, and those that list 1.
#[derive(Clone, Copy, Debug)]
pub(crate) struct Listing {
    pub(crate) zeros: [u64; 8],
    pub(crate) ones: [u64; 8],
}

impl Listing {
    /// No lane lists the node.
    pub(crate) fn none() -> Listing
        ensures { (lane : ℕ) → listed_in result lane ≡ None }
    {
        Listing {
            zeros: [0; 8],
            ones: [0; 8],
        }
    }

    /// Lists a bit for the node in a lane that lists none.
    #[inline(always)]
    pub(crate) fn list(&mut self, lane: u32, bit: bool)
        requires lane { lane < 512 }
        requires none { listed_in self.old lane ≡ None }
        ensures here { listed_in self.new lane ≡ Some bit }
        ensures others { (other : ℕ) → other < 512 → other ≢ lane
            → listed_in self.new other ≡ listed_in self.old other }
    {
        join_lane(&mut self.zeros, lane, !bit);
        join_lane(&mut self.ones, lane, bit);
    }

    /// Lists a value for the node in a lane, or none.
    #[inline(always)]
    pub(crate) fn put(&mut self, lane: u32, value: Option<bool>)
        requires { lane < 512 }
        ensures here { listed_in self.new lane ≡ value }
        ensures others { (other : ℕ) → other < 512 → other ≢ lane
            → listed_in self.new other ≡ listed_in self.old other }
    {
        put_lane(&mut self.zeros, lane, value == Some(false));
        put_lane(&mut self.ones, lane, value == Some(true));
    }

    /// Lists a bit for the node in each of eight lanes that list none, those of a byte.
    #[inline(always)]
    pub(crate) fn list_eight(&mut self, eight: u32, bits: u8)
        requires eight { eight < 64 }
        requires none { (lane : ℕ) → lane / 8 ≡ eight → listed_in self.old lane ≡ None }
        ensures here { (lane : ℕ) → lane / 8 ≡ eight
            → listed_in self.new lane ≡ Some (byte_has bits (lane % 8)) }
        ensures others { (other : ℕ) → other < 512 → other / 8 ≢ eight
            → listed_in self.new other ≡ listed_in self.old other }
    {
        join_eight(&mut self.zeros, eight, !bits);
        join_eight(&mut self.ones, eight, bits);
    }

    /// Lists the same bit for the node in each lane of a set.
    #[inline(always)]
    pub(crate) fn hold(&mut self, lanes: &[u64; 8], bit: bool)
        ensures here { (lane : ℕ) → lane < 512 → has_lane lanes.now lane ≡ true
            → listed_in self.new lane ≡ Some bit }
        ensures others { (other : ℕ) → other < 512 → has_lane lanes.now other ≡ false
            → listed_in self.new other ≡ listed_in self.old other }
    {
        put_lanes(&mut self.zeros, lanes, !bit);
        put_lanes(&mut self.ones, lanes, bit);
    }

    /// The listed value in each lane, and X in the lanes that list none.
    #[inline(always)]
    pub(crate) fn values(&self) -> Pair
        ensures planes { ArePlanes result }
        ensures lanes { (lane : ℕ) → lane < 512
            → HasValue result lane (listed_value (Some (listed_in self.now lane))) }
    {
        let zeros = u64x8::from_array(self.zeros);
        let ones = u64x8::from_array(self.ones);
        is_plane(zeros);
        is_plane(ones);
        let pair = Pair {
            zero: zeros | !ones,
            one: !zeros,
        };
        pair.are_planes();
        pair
    }

    /// The listed bit in each lane, and 0 in the lanes that list none.
    #[inline(always)]
    pub(crate) fn bits(&self) -> Pair
        ensures known { IsKnownPair result }
        ensures lanes { (lane : ℕ) (bit : Bool) → lane < 512 → listed_in self.now lane ≡ Some bit
            → HasValue result lane (tri_of bit) }
    {
        let zeros = u64x8::from_array(self.zeros);
        let ones = u64x8::from_array(self.ones);
        is_plane(zeros);
        is_plane(ones);
        let one = !zeros & ones;
        Pair { zero: !one, one }
    }

    /// Whether no lane lists the node.
    #[inline(always)]
    pub(crate) fn is_empty(&self) -> bool
        ensures { IsTrue result → (lane : ℕ) → lane < 512 → listed_in self.now lane ≡ None }
    {
        let zeros = u64x8::from_array(self.zeros);
        let ones = u64x8::from_array(self.ones);
        is_plane(zeros);
        is_plane(ones);
        is_zero(zeros | ones)
    }
}
