//! The excitation of a gate in all lanes at once, if each of its pins has a known bit in each lane: one plane a pin is enough. By both
//! planes, `batch` on 5,000 gates takes 300 million instructions in place of 287.
ghost use Rattle.std.specs.Prelude.{◌≡◌, ◌<◌, ◌≤◌, All, IsTrue, length, map};
ghost use Rattle.hz_core.specs.Gate.{takes};
ghost use Rattle.hz_plane.specs.Bits.{IsPlane};
ghost use Rattle.hz_plane.specs.Forward.{IsKnownPair};
ghost use Rattle.hz_plane.specs.Pairs.{pair_at, and_pair, or_pair, xor_pair, complement_pair, known_pair, fold_pins, excited_pair};

use crate::pair::{Pair, is_plane};
use hz_core::Kind;
use std::simd::prelude::*;

/// The lanes in which a gate of this kind, whose pins read these nodes, is excited to 1. In all others it is excited to 0.
#[inline(always)]
pub(crate) fn excited_ones(kind: Kind, sources: &[u32], planes: &[Pair]) -> u64x8
    requires takes { IsTrue (takes kind (length sources.now)) }
    requires inside { All (λ source. source < length planes.now) sources.now }
    requires known { All (λ source. IsKnownPair (pair_at planes.now source)) sources.now }
    ensures plane { IsPlane result }
    ensures pair { known_pair result
        ≡ excited_pair kind (map (pair_at planes.now) sources.now) }
{
    match kind {
        Kind::And => conjunction(sources, planes),
        Kind::Nand => inverse(conjunction(sources, planes)),
        Kind::Or => disjunction(sources, planes),
        Kind::Nor => inverse(disjunction(sources, planes)),
        Kind::Xor => parity(sources, planes),
        Kind::Xnor => inverse(parity(sources, planes)),
        Kind::Not => inverse(ones_of(planes[sources[0] as usize])),
        Kind::Buff => ones_of(planes[sources[0] as usize]),
    }
}

// The lanes in which a node is 1.
#[inline(always)]
fn ones_of(pair: Pair) -> u64x8
    requires { IsKnownPair pair }
    ensures plane { IsPlane result }
    ensures pair { known_pair result ≡ pair }
{
    pair.one
}

#[tactic(auto, using(crate::proofs::Known::known_complement))]
#[inline(always)]
fn inverse(words: u64x8) -> u64x8
    ensures plane { IsPlane result }
    ensures pair { known_pair result ≡ complement_pair (known_pair words) }
{
    is_plane(words);
    let inverse = !words;
    is_plane(inverse);
    inverse
}

#[tactic(auto, using(crate::proofs::Known::known_and))]
#[inline(always)]
fn and_ones(words: u64x8, pair: Pair) -> u64x8
    requires { IsKnownPair pair }
    ensures plane { IsPlane result }
    ensures pair { known_pair result ≡ and_pair (known_pair words) pair }
{
    is_plane(words);
    let ones = words & pair.one;
    is_plane(ones);
    ones
}

#[tactic(auto, using(crate::proofs::Known::known_or))]
#[inline(always)]
fn or_ones(words: u64x8, pair: Pair) -> u64x8
    requires { IsKnownPair pair }
    ensures plane { IsPlane result }
    ensures pair { known_pair result ≡ or_pair (known_pair words) pair }
{
    is_plane(words);
    let ones = words | pair.one;
    is_plane(ones);
    ones
}

#[tactic(auto, using(crate::proofs::Known::known_xor))]
#[inline(always)]
fn xor_ones(words: u64x8, pair: Pair) -> u64x8
    requires { IsKnownPair pair }
    ensures plane { IsPlane result }
    ensures pair { known_pair result ≡ xor_pair (known_pair words) pair }
{
    is_plane(words);
    let ones = (!words & pair.one) | (words & !pair.one);
    is_plane(ones);
    ones
}

#[inline(always)]
fn conjunction(sources: &[u32], planes: &[Pair]) -> u64x8
    requires some { 1 ≤ length sources.now }
    requires inside { All (λ source. source < length planes.now) sources.now }
    requires known { All (λ source. IsKnownPair (pair_at planes.now source)) sources.now }
    ensures plane { IsPlane result }
    ensures pair { known_pair result ≡ fold_pins and_pair (map (pair_at planes.now) sources.now) }
{
    let mut ones = ones_of(planes[sources[0] as usize]);
    for source in &sources[1..] {
        ones = and_ones(ones, planes[*source as usize]);
    }
    ones
}

#[inline(always)]
fn disjunction(sources: &[u32], planes: &[Pair]) -> u64x8
    requires some { 1 ≤ length sources.now }
    requires inside { All (λ source. source < length planes.now) sources.now }
    requires known { All (λ source. IsKnownPair (pair_at planes.now source)) sources.now }
    ensures plane { IsPlane result }
    ensures pair { known_pair result ≡ fold_pins or_pair (map (pair_at planes.now) sources.now) }
{
    let mut ones = ones_of(planes[sources[0] as usize]);
    for source in &sources[1..] {
        ones = or_ones(ones, planes[*source as usize]);
    }
    ones
}

#[inline(always)]
fn parity(sources: &[u32], planes: &[Pair]) -> u64x8
    requires some { 1 ≤ length sources.now }
    requires inside { All (λ source. source < length planes.now) sources.now }
    requires known { All (λ source. IsKnownPair (pair_at planes.now source)) sources.now }
    ensures plane { IsPlane result }
    ensures pair { known_pair result ≡ fold_pins xor_pair (map (pair_at planes.now) sources.now) }
{
    let mut ones = ones_of(planes[sources[0] as usize]);
    for source in &sources[1..] {
        ones = xor_ones(ones, planes[*source as usize]);
    }
    ones
}
