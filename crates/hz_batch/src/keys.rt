//! Both values of an output in a lane as one number, by which their letters are looked up. By the values themselves, `batch` on an
//! adder of 32 bits takes 105 million instructions in place of 72.
ghost use Rattle.std.specs.Prelude.{◌≡◌, ◌<◌, length, IfOk};
ghost use Rattle.std.specs.Int.{bit_at};
ghost use Rattle.std.specs.List.{slice_index_or};
ghost use Rattle.hz_core.specs.declared.tri.Tri.TheVariants.{Zero};
ghost use Rattle.hz_plane.specs.declared.values.LaneValues.{LaneValues};
ghost use Rattle.hz_plane.specs.View.{value_in};
ghost use Rattle.hz_batch.specs.Keys.{AreJoined, AreKeys, AreKeysAt, HaveKeys, IsTable, key_in, pair_by, value_of_bits};

use crate::letter::Letter;
use hz_core::Memory;
use hz_plane::LaneValues;
use std::alloc::Global;

// Every fourth bit of a word.
const FOURTHS: u64 = 0x1111_1111_1111_1111;

// Both values, by the number of four bits that says whether the first one can be 0, and can be 1,
// and the same of the second one. The last of these bits is the lowest.
pub(crate) fn table_of(alloc: Global) -> Result<Vec<(Letter, Letter)>, Memory>
    ensures { IfOk result (λ table. IsTable table.items) }
{
    let mut table = Vec::with_capacity(alloc, 16)?;
    for key in 0..16u64 {
        table.push(pair_of(key))?;
    }
    Ok(table)
}

// Both values that a key says.
fn pair_of(key: u64) -> (Letter, Letter)
    ensures { result ≡ pair_by key }
{
    (letter_by(key / 8, key / 4), letter_by(key / 2, key))
}

// The letter of a value, by the lowest bits of two words: whether it can be 0, and can be 1.
fn letter_by(zero: u64, one: u64) -> Letter
    ensures { result ≡ value_of_bits (bit_at zero 0) (bit_at one 0) }
{
    let values = LaneValues {
        zero: [zero, 0, 0, 0, 0, 0, 0, 0],
        one: [one, 0, 0, 0, 0, 0, 0, 0],
    };
    Letter::of(values.get(0))
}

// Makes the keys of variables, by both of their values.
pub(crate) fn make_keys(firsts: &[LaneValues], seconds: &[LaneValues], keys: &mut [[[u64; 8]; 4]])
    requires seconds { length seconds.now ≡ length firsts.now }
    requires count { length keys.old ≡ length firsts.now }
    ensures count { length keys.new ≡ length keys.old }
    ensures keys { HaveKeys firsts.now seconds.now keys.new }
{
    for place in 0..firsts.len() {
        keys[place] = keys_of(&firsts[place], &seconds[place]);
    }
}

// The keys of a variable. That of lane `l` is four bits of word `l / 64` of list `l % 4`, from bit
// `l % 64 / 4 * 4` on.
fn keys_of(first: &LaneValues, second: &LaneValues) -> [[u64; 8]; 4]
    ensures { AreKeys first.now second.now result }
{
    [
        keys_at(first, second, 0),
        keys_at(first, second, 1),
        keys_at(first, second, 2),
        keys_at(first, second, 3),
    ]
}

// The keys of every fourth lane, from one on.
#[inline(always)]
fn keys_at(first: &LaneValues, second: &LaneValues, begin: u32) -> [u64; 8]
    requires { begin < 4 }
    ensures { AreKeysAt first.now second.now begin result }
{
    let mut keys = [0; 8];
    for word in 0..8 {
        keys[word] = joined(
            first.zero[word] >> begin,
            first.one[word] >> begin,
            second.zero[word] >> begin,
            second.one[word] >> begin,
        );
    }
    keys
}

// Every fourth bit of four words, side by side.
#[inline(always)]
fn joined(a: u64, b: u64, c: u64, d: u64) -> u64
    ensures { AreJoined a b c d result }
{
    ((a & FOURTHS) << 3) | ((b & FOURTHS) << 2) | ((c & FOURTHS) << 1) | (d & FOURTHS)
}

// Both letters of a variable in a lane.
#[inline(always)]
pub(crate) fn pair_at(
    table: &[(Letter, Letter)],
    keys: &[[u64; 8]; 4],
    lane: u32,
) -> (Letter, Letter)
    requires table { IsTable table.now }
    requires lane { lane < 512 }
    ensures { (first second : LaneValues) → AreKeys first second keys.now
        → result ≡ (value_in first lane, value_in second lane) }
{
    entry_at(table, key_at(keys, lane))
}

// The key of a lane.
#[inline(always)]
fn key_at(keys: &[[u64; 8]; 4], lane: u32) -> usize
    requires { lane < 512 }
    ensures { result ≡ key_in keys.now lane }
{
    let word = keys[(lane % 4) as usize][(lane / 64) as usize];
    ((word >> (lane % 64 / 4 * 4)) % 16) as usize
}

// Both letters that a key says.
#[inline(always)]
fn entry_at(table: &[(Letter, Letter)], key: usize) -> (Letter, Letter)
    requires { key < length table.now }
    ensures { result ≡ slice_index_or table.now key (Zero, Zero) }
{
    table[key]
}
