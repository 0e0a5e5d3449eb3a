//! Sets of lanes, a bit for each.
ghost use Rattle.std.specs.Prelude.{◌≡◌, ◌≢◌, ℕ, ◌/◌, ◌%◌, ◌<◌, true, false};
ghost use Rattle.hz_plane.specs.Bits.{has_lane};
ghost use Rattle.hz_plane.specs.EightBits.{byte_has};

use crate::pair::is_plane;
use std::simd::prelude::*;

/// Whether a lane is in a set.
#[inline(always)]
pub(crate) fn has_lane(set: &[u64; 8], lane: u32) -> bool
    requires { lane < 512 }
    ensures { result ≡ has_lane set.now lane }
{
    (set[(lane / 64) as usize] >> (lane % 64)) & 1 == 1
}

/// Takes a lane into a set, or out of it.
#[inline(always)]
pub(crate) fn put_lane(set: &mut [u64; 8], lane: u32, is_in: bool)
    requires { lane < 512 }
    ensures here { has_lane set.new lane ≡ is_in }
    ensures others { (other : ℕ) → other < 512 → other ≢ lane
        → has_lane set.new other ≡ has_lane set.old other }
{
    if is_in {
        add_lane(set, lane);
    } else {
        remove_lane(set, lane);
    }
}

/// Takes lanes into a set, or out of it.
#[inline(always)]
pub(crate) fn put_lanes(set: &mut [u64; 8], lanes: &[u64; 8], are_in: bool)
    ensures here { (lane : ℕ) → lane < 512 → has_lane lanes.now lane ≡ true
        → has_lane set.new lane ≡ are_in }
    ensures others { (other : ℕ) → other < 512 → has_lane lanes.now other ≡ false
        → has_lane set.new other ≡ has_lane set.old other }
{
    let words = u64x8::from_array(*set);
    let put = u64x8::from_array(*lanes);
    is_plane(words);
    is_plane(put);
    if are_in {
        *set = (words | put).to_array();
    } else {
        *set = (words & !put).to_array();
    }
}

/// Takes a lane that is not in a set into it, if it is to be in. This takes no branch.
#[inline(always)]
pub(crate) fn join_lane(set: &mut [u64; 8], lane: u32, is_in: bool)
    requires lane { lane < 512 }
    requires out { has_lane set.old lane ≡ false }
    ensures here { has_lane set.new lane ≡ is_in }
    ensures others { (other : ℕ) → other < 512 → other ≢ lane
        → has_lane set.new other ≡ has_lane set.old other }
{
    let word = (lane / 64) as usize;
    set[word] |= (is_in as u64) << (lane % 64);
}

#[inline(always)]
fn add_lane(set: &mut [u64; 8], lane: u32)
    requires { lane < 512 }
    ensures here { has_lane set.new lane ≡ true }
    ensures others { (other : ℕ) → other < 512 → other ≢ lane
        → has_lane set.new other ≡ has_lane set.old other }
{
    let word = (lane / 64) as usize;
    set[word] |= 1u64 << (lane % 64);
}

#[inline(always)]
fn remove_lane(set: &mut [u64; 8], lane: u32)
    requires { lane < 512 }
    ensures here { has_lane set.new lane ≡ false }
    ensures others { (other : ℕ) → other < 512 → other ≢ lane
        → has_lane set.new other ≡ has_lane set.old other }
{
    let word = (lane / 64) as usize;
    set[word] &= !(1u64 << (lane % 64));
}

/// Gives eight lanes their bits, those of a byte.
#[inline(always)]
pub(crate) fn put_eight(set: &mut [u64; 8], eight: u32, byte: u8)
    requires { eight < 64 }
    ensures here { (lane : ℕ) → lane / 8 ≡ eight
        → has_lane set.new lane ≡ byte_has byte (lane % 8) }
    ensures others { (other : ℕ) → other < 512 → other / 8 ≢ eight
        → has_lane set.new other ≡ has_lane set.old other }
{
    let word = (eight / 8) as usize;
    let low = 8 * (eight % 8);
    set[word] = (set[word] & !(255 << low)) | ((byte as u64) << low);
}

/// Gives eight lanes, none of which is in a set, their bits, those of a byte.
#[inline(always)]
pub(crate) fn join_eight(set: &mut [u64; 8], eight: u32, byte: u8)
    requires eight { eight < 64 }
    requires out { (lane : ℕ) → lane / 8 ≡ eight → has_lane set.old lane ≡ false }
    ensures here { (lane : ℕ) → lane / 8 ≡ eight
        → has_lane set.new lane ≡ byte_has byte (lane % 8) }
    ensures others { (other : ℕ) → other < 512 → other / 8 ≢ eight
        → has_lane set.new other ≡ has_lane set.old other }
{
    let word = (eight / 8) as usize;
    set[word] |= (byte as u64) << (8 * (eight % 8));
}
