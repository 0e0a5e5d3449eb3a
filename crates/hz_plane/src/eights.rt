//! Eight lanes at once: their bits for an input are one byte. Lane by lane, `batch` on an adder of 32 bits takes 149 million
//! instructions in place of 72.
ghost use Rattle.std.specs.Prelude.{◌≡◌, ◌≢◌, ◌+◌, ◌*◌, ◌/◌, ◌%◌, ◌<◌, ◌≤◌, ◌⊎◌, ℕ, Some, None, false, [], length, take, drop, replicate, slice_index};
ghost use Rattle.std.specs.List.{slice_index_or};
ghost use Rattle.hz_plane.specs.Bits.{has_lane};
ghost use Rattle.hz_plane.specs.EightBits.{byte_has, AreGathered};
ghost use Rattle.hz_plane.specs.Loads.{lane_listed, listed_in, listed_with};

use crate::lanes::put_eight;
use crate::listing::Listing;

// How many inputs are gathered at once.
const PART: usize = 64;

// The bits of eight lanes for one input, that of the first lane lowest. A step is from a lane to the next one.
#[inline(always)]
fn byte_at(bits: &[bool], at: usize, step: usize) -> u8
    requires { at + 7 * step < length bits.now }
    ensures { (lane : ℕ) → lane < 8
        → byte_has result lane ≡ slice_index_or bits.now (at + lane * step) false }
{
    let mut byte = 0;
    for lane in 0..8 {
        byte = 2 * byte + bits[at + (7 - lane) * step] as u8;
    }
    byte
}

// Gathers the bits of eight lanes for inputs one after the other. A vector unit does this for many inputs at once.
fn gather(bits: &[bool], at: usize, step: usize, count: usize, bytes: &mut [u8; 64])
    requires count { count ≤ 64 }
    requires inside { count + at + 7 * step ≤ length bits.now }
    ensures { AreGathered bits.now at step count bytes.new }
{
    for i in 0..count {
        bytes[i] = byte_at(bits, at + i, step);
    }
}

/// Gives eight lanes their bits for the inputs.
pub(crate) fn set_eight(eight: u32, bits: &[bool], at: usize, step: usize, sets: &mut [[u64; 8]])
    requires eight { eight < 64 }
    requires inside { length sets.old + at + 7 * step ≤ length bits.now }
    ensures here { (i lane : ℕ) → i < length sets.old → lane / 8 ≡ eight
        → has_lane (slice_index_or sets.new i []) lane
        ≡ slice_index_or bits.now (at + i + (lane % 8) * step) false }
    ensures others { (i lane : ℕ) → lane < 512 → lane / 8 ≢ eight
        → has_lane (slice_index_or sets.new i []) lane
        ≡ has_lane (slice_index_or sets.old i []) lane }
{
    let mut bytes = [0; PART];
    for part in 0..sets.len().div_ceil(PART) {
        let from = PART * part;
        let count = (sets.len() - from).min(PART);
        gather(bits, at + from, step, count, &mut bytes);
        set_part(eight, &bytes, from, count, sets);
    }
}

// Gives eight lanes their bits for a part of the inputs.
fn set_part(eight: u32, bytes: &[u8; 64], from: usize, count: usize, sets: &mut [[u64; 8]])
    requires eight { eight < 64 }
    requires count { count ≤ 64 }
    requires inside { from + count ≤ length sets.old }
    ensures here { (i lane : ℕ) → i < count → lane / 8 ≡ eight
        → has_lane (slice_index_or sets.new (from + i) []) lane
        ≡ byte_has (slice_index bytes.now i) (lane % 8) }
    ensures others { (i lane : ℕ) → lane < 512
        → (lane / 8 ≢ eight) ⊎ (i < from) ⊎ (from + count ≤ i)
        → has_lane (slice_index_or sets.new i []) lane
        ≡ has_lane (slice_index_or sets.old i []) lane }
{
    for i in 0..count {
        put_eight(&mut sets[from + i], eight, bytes[i]);
    }
}

/// Gives eight lanes that list nothing the start that lists their bits for the inputs.
pub(crate) fn start_eight(
    eight: u32,
    bits: &[bool],
    at: usize,
    inputs: usize,
    listings: &mut [Listing],
)
    requires eight { eight < 64 }
    requires inputs { inputs ≤ length listings.old }
    requires inside { inputs + at + 7 * (2 * inputs) ≤ length bits.now }
    requires none { (lane : ℕ) → lane / 8 ≡ eight
        → lane_listed listings.old lane ≡ replicate (length listings.old) None }
    ensures here { (lane : ℕ) → lane / 8 ≡ eight → lane_listed listings.new lane
        ≡ listed_with (length listings.old)
        (take inputs (drop (at + (lane % 8) * (2 * inputs)) bits.now)) [] }
    ensures others { (other : ℕ) → other < 512 → other / 8 ≢ eight
        → lane_listed listings.new other ≡ lane_listed listings.old other }
{
    list_eight(eight, bits, at, 2 * inputs, inputs, listings);
}

// Lets eight lanes that list nothing list their bits for the inputs, the first nodes of this count.
fn list_eight(
    eight: u32,
    bits: &[bool],
    at: usize,
    step: usize,
    inputs: usize,
    listings: &mut [Listing],
)
    requires eight { eight < 64 }
    requires inputs { inputs ≤ length listings.old }
    requires inside { inputs + at + 7 * step ≤ length bits.now }
    requires none { (i lane : ℕ) → i < length listings.old → lane / 8 ≡ eight
        → listed_in (slice_index_or listings.old i (record { zeros = []; ones = [] })) lane ≡ None }
    ensures here { (i lane : ℕ) → i < inputs → lane / 8 ≡ eight
        → listed_in (slice_index_or listings.new i (record { zeros = []; ones = [] })) lane
        ≡ Some (slice_index_or bits.now (at + i + (lane % 8) * step) false) }
    ensures others { (i lane : ℕ) → lane < 512 → (lane / 8 ≢ eight) ⊎ (inputs ≤ i)
        → listed_in (slice_index_or listings.new i (record { zeros = []; ones = [] })) lane
        ≡ listed_in (slice_index_or listings.old i (record { zeros = []; ones = [] })) lane }
{
    let mut bytes = [0; PART];
    for part in 0..inputs.div_ceil(PART) {
        let from = PART * part;
        let count = (inputs - from).min(PART);
        gather(bits, at + from, step, count, &mut bytes);
        list_part(eight, &bytes, from, count, listings);
    }
}

// Lets eight lanes that list nothing list their bits for a part of the inputs.
fn list_part(eight: u32, bytes: &[u8; 64], from: usize, count: usize, listings: &mut [Listing])
    requires eight { eight < 64 }
    requires count { count ≤ 64 }
    requires inside { from + count ≤ length listings.old }
    requires none { (i lane : ℕ) → i < count → lane / 8 ≡ eight
        → listed_in (slice_index_or listings.old (from + i) (record { zeros = []; ones = [] })) lane
        ≡ None }
    ensures here { (i lane : ℕ) → i < count → lane / 8 ≡ eight
        → listed_in (slice_index_or listings.new (from + i) (record { zeros = []; ones = [] })) lane
        ≡ Some (byte_has (slice_index bytes.now i) (lane % 8)) }
    ensures others { (i lane : ℕ) → lane < 512
        → (lane / 8 ≢ eight) ⊎ (i < from) ⊎ (from + count ≤ i)
        → listed_in (slice_index_or listings.new i (record { zeros = []; ones = [] })) lane
        ≡ listed_in (slice_index_or listings.old i (record { zeros = []; ones = [] })) lane }
{
    for i in 0..count {
        listings[from + i].list_eight(eight, bytes[i]);
    }
}
