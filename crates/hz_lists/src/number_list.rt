//! Lists of numbers that name each number once.
ghost use Rattle.std.specs.Prelude.{◌≡◌, ◌||◌, ℕ, nat_eq, slice_index_or, false, [], IsTrue, IsOk, OnOk, OnErr};
ghost use Rattle.hz_lists.specs.Listed.{is_listed};
ghost use Rattle.hz_lists.specs.NumberLists.{with_number};

use std::alloc::{AllocError, Global};
use std::marker::Model;

/// Numbers in the order in which they were first put in, each once. Contracts see the list.
///
/// Whether it has a number is told by a mark, not by a hash, so nobody can choose numbers that collide. The marks take a byte for
/// each number up to the greatest one.
#[derive(Debug, Drop)]
pub struct NumberList {
    list: Vec<u32>,
    marks: Vec<bool>,
}

impl Model for NumberList {
    ghost use Rattle.std.specs.Prelude.{List, ℕ};

    ghost Value = { List ℕ };

    ghost use Rattle.hz_lists.specs.NumberLists.{AreMarksOf};

    ghost view = { λ numbers. numbers.list.items };

    ghost invariant = { λ numbers. AreMarksOf numbers.list.items numbers.marks.items };
}

impl NumberList {
    /// No number. It allocates nothing.
    pub fn new(alloc: Global) -> NumberList
        ensures { result ≡ [] }
    {
        NumberList {
            list: Vec::new(alloc),
            marks: Vec::new(alloc),
        }
    }

    /// Puts a number last. One that is there stays in its place.
    pub fn insert(&mut self, number: u32) -> Result<(), AllocError>
        ensures there { IsTrue (is_listed self.old number) → IsOk result }
        ensures ok { OnOk result (self.new ≡ with_number self.old number) }
        ensures err { OnErr result (self.new ≡ self.old) }
    {
        if self.contains(number) {
            return Ok(());
        }
        self.list.reserve(1)?;
        mark(&mut self.marks, number)?;
        self.list.push_reserved(number);
        Ok(())
    }

    /// Whether a number is there.
    pub fn contains(&self, number: u32) -> bool
        ensures { result ≡ is_listed self.now number }
    {
        is_marked(self.marks.as_slice(), number)
    }

    /// The numbers, in the order in which they were put in.
    pub fn as_slice(&self) -> &[u32]
        ensures { result.now ≡ self.now }
    {
        self.list.as_slice()
    }
}

// The mark of a number; beyond the marks there is none.
fn is_marked(marks: &[bool], number: u32) -> bool
    ensures { result ≡ slice_index_or marks.now number false }
{
    match marks.get(number as usize) {
        Some(mark) => *mark,
        None => false,
    }
}

// Marks a number.
fn mark(marks: &mut Vec<bool>, number: u32) -> Result<(), AllocError>
    ensures ok { OnOk result
        ((i : ℕ) →
        slice_index_or marks.new.items i false
        ≡ (nat_eq i number || slice_index_or marks.old.items i false)) }
    ensures err { OnErr result (marks.new.items ≡ marks.old.items) }
{
    let place = number as usize;
    let len = marks.len().max(place + 1);
    marks.resize(len, false)?;
    marks[place] = true;
    Ok(())
}
