//! Ordered sets of numbers.
ghost use Rattle.std.specs.Prelude.{◌≡◌, ◌<◌, ◌≤◌, true, false, length, replicate, slice_set, IfOk};
ghost use Rattle.hz_lists.specs.NumberSets.{least_of, greatest_of, most_numbers};

use crate::bits::{clear_bit, highest_in, lowest_in, set_bit};
use std::alloc::{AllocError, Global};
use std::marker::Model;

/// A set of the numbers below a count. Contracts see it as a list of marks, one for each of these numbers.
///
/// An insertion, a removal and a look at the least or the greatest member take constant time, however large the count is. The
/// members are bits in words. A second list has a bit for each of these words that has one, and a third list a bit for each word
/// of the second. So a set has three words to look at, and can be of 262,144 numbers. Only `new` takes memory.
#[derive(Debug, Drop)]
pub struct NumberSet {
    count: u32,
    low: Vec<u64>,
    middle: Vec<u64>,
    top: Vec<u64>,
}

impl Model for NumberSet {
    ghost use Rattle.std.specs.Prelude.{List, Bool};

    ghost Value = { List Bool };

    ghost use Rattle.hz_lists.specs.Inside.{marks_of, HoldsNumberSet};

    ghost view = { λ set. marks_of set.count set.low.items };

    ghost invariant = { λ set. HoldsNumberSet set.count set.low.items set.middle.items
        set.top.items };
}

impl NumberSet {
    /// No number.
    pub fn new(alloc: Global, count: u32) -> Result<NumberSet, AllocError>
        requires { count ≤ most_numbers }
        ensures { IfOk result (λ set. set ≡ replicate count false) }
    {
        Ok(NumberSet {
            count,
            low: vec![in alloc; 0; (count / 64) as usize + 1]?,
            middle: vec![in alloc; 0; (count / 64 / 64) as usize + 1]?,
            top: vec![in alloc; 0; 1]?,
        })
    }

    /// Puts a number into the set.
    pub fn insert(&mut self, number: u32)
        requires { number < length self.old }
        ensures { self.new ≡ slice_set self.old number true }
    {
        set_bit(self.low.as_mut_slice(), number);
        set_bit(self.middle.as_mut_slice(), number / 64);
        set_bit(self.top.as_mut_slice(), number / 64 / 64);
    }

    /// Takes a number out of the set.
    pub fn remove(&mut self, number: u32)
        requires { number < length self.old }
        ensures { self.new ≡ slice_set self.old number false }
    {
        if !clear_bit(self.low.as_mut_slice(), number) {
            return;
        }
        if !clear_bit(self.middle.as_mut_slice(), number / 64) {
            return;
        }
        clear_bit(self.top.as_mut_slice(), number / 64 / 64);
    }

    /// The least number of the set.
    pub fn least(&self) -> Option<u32>
        ensures { result ≡ least_of self.now }
    {
        if self.top[0] == 0 {
            return None;
        }
        let top = lowest_in(self.top.as_slice(), 0);
        let middle = lowest_in(self.middle.as_slice(), top);
        Some(lowest_in(self.low.as_slice(), middle))
    }

    /// The greatest number of the set.
    pub fn greatest(&self) -> Option<u32>
        ensures { result ≡ greatest_of self.now }
    {
        if self.top[0] == 0 {
            return None;
        }
        let top = highest_in(self.top.as_slice(), 0);
        let middle = highest_in(self.middle.as_slice(), top);
        Some(highest_in(self.low.as_slice(), middle))
    }
}
