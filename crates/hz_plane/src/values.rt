//! The values of a variable in all lanes at once.
ghost use Rattle.std.specs.Prelude.{◌≡◌, ℕ, ◌<◌};
ghost use Rattle.hz_core.specs.declared.tri.Tri.TheVariants.{Unknown};
ghost use Rattle.hz_plane.specs.View.{value_by, value_in};

use crate::lanes::has_lane;
use hz_core::Tri;

/// Two sets of lanes of a variable: those in which it can be 0, and those in which it can be 1. In a lane of both it is X. Lane
/// `l` is bit `l % 64` of word `l / 64`.
#[derive(Clone, Copy, Debug)]
pub struct LaneValues {
    /// The lanes in which it can be 0.
    pub zero: [u64; 8],
    /// The lanes in which it can be 1.
    pub one: [u64; 8],
}

impl LaneValues {
    /// X in each lane.
    pub(crate) fn unknown() -> LaneValues
        ensures { (lane : ℕ) → lane < 512 → value_in result lane ≡ Unknown }
    {
        LaneValues {
            zero: [u64::MAX; 8],
            one: [u64::MAX; 8],
        }
    }

    /// The value in a lane.
    #[inline(always)]
    pub fn get(&self, lane: u32) -> Tri
        requires { lane < 512 }
        ensures { result ≡ value_in self.now lane }
    {
        value_by(has_lane(&self.zero, lane), has_lane(&self.one, lane))
    }
}

/// The value that can be 0, or 1, or both. Bits of many lanes are random, so this is written to take no branch.
#[inline(always)]
pub(crate) fn value_by(zero: bool, one: bool) -> Tri
    ensures { result ≡ value_by zero one }
{
    if zero == one {
        Tri::Unknown
    } else if one {
        Tri::One
    } else {
        Tri::Zero
    }
}
