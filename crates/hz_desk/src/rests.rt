//! What variables are told to rest at. Compared row by row, 1,000 changes of 2,000 variables take 4.5 % more instructions.
ghost use Rattle.std.specs.Prelude.{◌≡◌, ℕ, ◌+◌, ◌<◌, ◌≤◌, Some, None, length, replicate, slice_index_or, slice_set, IfOk, IsTrue};
ghost use Rattle.std.specs.List.{slice_get};
ghost use Rattle.hz_desk.specs.declared.finding.Rest.{Rest};
ghost use Rattle.hz_desk.specs.RowsOf.{row_at_rest};
ghost use Rattle.hz_desk.specs.RestsOf.{value_told, counted_told};
ghost use Rattle.hz_core.specs.Ternary.{tri_of};
ghost use Rattle.hz_free.specs.CappedWords.{constant_if};
ghost use Rattle.hz_net.specs.Network.{bit_at, value_at};

use crate::finding::{Rest, Rows};
use hz_core::{Memory, Tri};
use hz_free::PackedWord;
use std::alloc::Global;
use std::marker::Model;

/// What each variable is told to rest at, if it is told. It is kept as a list for each kind, so that many variables are compared
/// with their rows at once.
#[derive(Debug, Drop)]
pub struct Rests {
    // X if a variable isn't told.
    values: Vec<Tri>,
    counted: Vec<bool>,
}

impl Model for Rests {
    ghost use Rattle.std.specs.Prelude.{◌≡◌, List, Option, length};
    ghost use Rattle.hz_desk.specs.declared.finding.Rest.{Rest};
    ghost use Rattle.hz_desk.specs.RestsOf.{rests_of};

    ghost Value = { List (Option Rest) };

    ghost view = { λ fields. rests_of fields.values.items fields.counted.items };

    ghost invariant = { λ fields. length fields.counted.items ≡ length fields.values.items };
}

impl Rests {
    /// So many variables, none of which is told.
    pub fn none(alloc: Global, variables: usize) -> Result<Rests, Memory>
        ensures { IfOk result (λ rests. rests ≡ replicate variables None) }
    {
        Ok(Rests {
            values: vec![in alloc; Tri::Unknown; variables]?,
            counted: vec![in alloc; false; variables]?,
        })
    }

    /// Tells what a variable rests at, or that it isn't told.
    pub fn set(&mut self, var: usize, rest: Option<Rest>)
        requires { var < length self.old }
        ensures { self.new ≡ slice_set self.old var rest }
    {
        self.values[var] = value_told(rest);
        self.counted[var] = counted_told(rest);
    }

    /// Whether so many variables from one on are seen to have the rows of ones that rest at what they are told.
    #[inline(always)]
    pub fn are_in(&self, rows: &Rows, first: usize, count: usize) -> bool
        requires rests { first + count ≤ length self.now }
        requires rows { first + count ≤ length rows.now }
        ensures { IsTrue result → (i : ℕ) → i < count → (rest : Rest)
            × (slice_index_or self.now (first + i) None ≡ Some rest)
            × (slice_get rows.now (first + i) ≡ Some (row_at_rest rest)) }
    {
        let values = self.values.as_slice();
        if !have_values(rows.a.as_slice(), values, first, count) {
            return false;
        }
        if !have_values(rows.b.as_slice(), values, first, count) {
            return false;
        }
        if !have_bits(rows.start.as_slice(), values, first, count) {
            return false;
        }
        have_words(
            rows.words.as_slice(),
            rows.start.as_slice(),
            self.counted.as_slice(),
            first,
            count,
        )
    }
}

// The value that tells this.
fn value_told(rest: Option<Rest>) -> Tri
    ensures { result ≡ value_told rest }
{
    match rest {
        Some(rest) => Tri::of(rest.value),
        None => Tri::Unknown,
    }
}

// Whether there is a number of changes.
fn counted_told(rest: Option<Rest>) -> bool
    ensures { result ≡ counted_told rest }
{
    match rest {
        Some(rest) => rest.counted,
        None => false,
    }
}

// Whether so many values are those that are told. It has no branch between two of them.
#[inline(always)]
fn have_values(list: &[Tri], told: &[Tri], first: usize, count: usize) -> bool
    requires list { first + count ≤ length list.now }
    requires told { first + count ≤ length told.now }
    ensures { IsTrue result → (i : ℕ) → i < count
        → value_at list.now (first + i) ≡ value_at told.now (first + i) }
{
    let mut same = true;
    for place in 0..count {
        same &= list[first + place] == told[first + place];
    }
    same
}

// Whether so many bits are the values that are told.
#[inline(always)]
fn have_bits(bits: &[bool], told: &[Tri], first: usize, count: usize) -> bool
    requires bits { first + count ≤ length bits.now }
    requires told { first + count ≤ length told.now }
    ensures { IsTrue result → (i : ℕ) → i < count
        → tri_of (bit_at bits.now (first + i)) ≡ value_at told.now (first + i) }
{
    let mut same = true;
    for place in 0..count {
        same &= Tri::of(bits[first + place]) == told[first + place];
    }
    same
}

// Whether so many words are those of variables that keep these bits, or none if none is counted.
#[inline(always)]
fn have_words(
    words: &[PackedWord],
    bits: &[bool],
    counted: &[bool],
    first: usize,
    count: usize,
) -> bool
    requires words { first + count ≤ length words.now }
    requires bits { first + count ≤ length bits.now }
    requires counted { first + count ≤ length counted.now }
    ensures { IsTrue result → (i : ℕ) → i < count
        → slice_index_or words.now (first + i) None
        ≡ constant_if (bit_at counted.now (first + i)) (bit_at bits.now (first + i)) }
{
    let mut same = true;
    for place in 0..count {
        same &= words[first + place].rests_at(bits[first + place], counted[first + place]);
    }
    same
}
