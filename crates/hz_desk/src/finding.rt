//! What is found of one change.
ghost use Rattle.std.specs.Prelude.{◌≡◌, ◌<◌, ◌≤◌, ℕ, Some, length, map, IfOk, IfSome};
ghost use Rattle.std.specs.List.{slice_get};
ghost use Rattle.hz_desk.specs.Finding.{values_a, values_b};
ghost use Rattle.hz_desk.specs.Rows.{changes_of};
ghost use Rattle.hz_desk.specs.RowsOf.{row_with, row_at_rest};
ghost use Rattle.hz_desk.specs.FindingRoom.{HasRooms};
ghost use Rattle.hz_core.specs.Limits.{most_variables};

use crate::class::{Class, class_of};
use hz_core::{Memory, Tri};
use hz_free::PackedWord;
use hz_gmw::Run;
use hz_word::{Count, Word};
use std::alloc::Global;
use std::marker::Model;

/// What is found of one variable.
#[derive(Clone, Copy, Debug, PartialEq, Eq)]
pub struct Row {
    /// Its value at the start.
    pub start: bool,
    /// Its value in the result of Algorithm A: X if runs give it both values.
    pub a: Tri,
    /// Its value in the result of Algorithm B: X if both values may last.
    pub b: Tri,
    /// The most changes that it can make, up to a cap; none if it isn't feedback-free.
    pub changes: Option<Count>,
    /// What the change may do to it.
    pub class: Class,
}

/// What a variable rests at that never changes.
#[derive(Clone, Copy, Debug, PartialEq, Eq)]
pub struct Rest {
    /// The value that it keeps.
    pub value: bool,
    /// Whether it has a number of changes, which is 0. It has none if it isn't feedback-free.
    pub counted: bool,
}

/// A row for each variable, in the order of the network's variables. The values of all rows are kept in a list for each kind, and
/// a row is made when it is asked for.
#[derive(Debug, Drop)]
pub struct Rows {
    pub(crate) start: Vec<bool>,
    pub(crate) a: Vec<Tri>,
    pub(crate) b: Vec<Tri>,
    pub(crate) words: Vec<PackedWord>,
}

impl Model for Rows {
    ghost use Rattle.std.specs.Prelude.{List};
    ghost use Rattle.hz_desk.specs.declared.finding.Row.{Row};

    ghost Value = { List Row };

    ghost use Rattle.hz_desk.specs.RowsOf.{rows_of, AreEquallyLong};

    ghost view = { λ fields. rows_of fields.start.items fields.a.items fields.b.items
        fields.words.items };

    ghost invariant = { λ fields. AreEquallyLong fields.start.items fields.a.items fields.b.items
        fields.words.items };
}

impl Rows {
    // As many rows, of variables that stay 0.
    pub(crate) fn with_room(alloc: Global, variables: usize) -> Result<Rows, Memory>
        ensures { IfOk result (λ rows. length rows ≡ variables) }
    {
        Ok(Rows {
            start: vec![in alloc; false; variables]?,
            a: vec![in alloc; Tri::Zero; variables]?,
            b: vec![in alloc; Tri::Zero; variables]?,
            words: vec![in alloc; PackedWord::none(); variables]?,
        })
    }

    /// How many rows there are.
    pub fn len(&self) -> usize
        ensures { result ≡ length self.now }
    {
        self.start.len()
    }

    /// The row of a variable.
    pub fn row(&self, var: usize) -> Row
        requires { var < length self.now }
        ensures { slice_get self.now var ≡ Some result }
    {
        row_of(
            self.start[var],
            self.a[var],
            self.b[var],
            self.words[var].get(),
        )
    }

    /// What a variable rests at, if its row is seen to be that of one that never changes. It takes less time than the row. If it
    /// returns none, nothing is known of the row.
    pub fn rest(&self, var: usize) -> Option<Rest>
        requires { var < length self.now }
        ensures { IfSome result (λ rest. slice_get self.now var ≡ Some (row_at_rest rest)) }
    {
        rest_of(
            self.start[var],
            self.a[var],
            self.b[var],
            self.words[var].get(),
        )
    }

    /// The values of all variables at the start.
    pub fn starts(&self) -> &[bool]
        ensures { result.now ≡ map (λ row. row.start) self.now }
    {
        self.start.as_slice()
    }

    /// The values of all variables in the result of Algorithm A.
    pub fn values_a(&self) -> &[Tri]
        ensures { result.now ≡ values_a self.now }
    {
        self.a.as_slice()
    }

    /// The values of all variables in the result of Algorithm B.
    pub fn values_b(&self) -> &[Tri]
        ensures { result.now ≡ values_b self.now }
    {
        self.b.as_slice()
    }
}

/// A value for each input, in the order of the inputs.
#[derive(Debug, Drop)]
pub struct Bits {
    pub(crate) bits: Vec<bool>,
}

impl Model for Bits {
    ghost use Rattle.std.specs.Prelude.{Bool, List};

    ghost Value = { List Bool };

    ghost view = { λ fields. fields.bits.items };
}

// The row of a variable.
fn row_of(start: bool, a: Tri, b: Tri, word: Option<Word>) -> Row
    ensures { result ≡ row_with start a b word }
{
    let changes = changes_of(word);
    Row {
        start,
        a,
        b,
        changes,
        class: class_of(start, a, b, changes),
    }
}

// What a variable rests at that is made of this, if it never changes.
fn rest_of(start: bool, a: Tri, b: Tri, word: Option<Word>) -> Option<Rest>
    ensures { IfSome result (λ rest. row_with start a b word ≡ row_at_rest rest) }
{
    match (start, a, b, changes_of(word)) {
        (false, Tri::Zero, Tri::Zero, Some(Count::Exact(0))) => Some(Rest {
            value: false,
            counted: true,
        }),
        (true, Tri::One, Tri::One, Some(Count::Exact(0))) => Some(Rest {
            value: true,
            counted: true,
        }),
        (false, Tri::Zero, Tri::Zero, None) => Some(Rest {
            value: false,
            counted: false,
        }),
        (true, Tri::One, Tri::One, None) => Some(Rest {
            value: true,
            counted: false,
        }),
        _ => None,
    }
}

// The number of changes of a word, if there is one.
fn changes_of(word: Option<Word>) -> Option<Count>
    ensures { result ≡ changes_of word }
{
    match word {
        Some(word) => Some(word.changes),
        None => None,
    }
}

impl Bits {
    // As many bits, all 0.
    pub(crate) fn with_room(alloc: Global, inputs: usize) -> Result<Bits, Memory>
        ensures { IfOk result (λ bits. length bits ≡ inputs) }
    {
        let Ok(bits) = vec![in alloc; false; inputs] else {
            return Err(Memory);
        };
        Ok(Bits { bits })
    }

    // Writes other values.
    pub(crate) fn write(&mut self, bits: &[bool])
        requires { length bits.now ≡ length self.old }
        ensures { self.new ≡ bits.now }
    {
        self.bits.as_mut_slice().copy_from_slice(bits);
    }

    /// The values.
    pub fn as_slice(&self) -> &[bool]
        ensures { result.now ≡ self.now }
    {
        self.bits.as_slice()
    }
}

/// What is found of one change: the results of Algorithms A and B of Brzozowski and Seger, the words of the algebra of
/// transients of Brzozowski and Ésik, and three runs that show every X.
#[derive(Debug, Drop)]
pub struct Finding {
    /// How many variables the network has.
    pub variables: u32,
    /// The rounds of Algorithm A, the last one included, which changes nothing.
    pub rounds_a: u32,
    /// The rounds of Algorithm B, the last one included, which changes nothing.
    pub rounds_b: u32,
    /// A row for each variable.
    pub rows: Rows,
    /// The input after the change.
    pub input: Bits,
    /// A run from the start in which each variable that is X in the result of Algorithm A changes once.
    pub spread: Run,
    /// A run from the start to a state in which each variable that Algorithm B settles has its value.
    pub settle: Run,
    /// A nontransient cycle from the last state of `settle`, in which each variable that is X in the result of Algorithm B
    /// takes both values. It has no step if there is none.
    pub cycle: Run,
    /// How many states of `spread` are race states: states with two or more unstable variables.
    pub spread_races: u32,
    /// How many states of `settle` are race states.
    pub settle_races: u32,
    /// How many states of `cycle` are race states. Its first state, which is its last one too, counts once.
    pub cycle_races: u32,
}

impl Finding {
    // Room for the finding of a change, in which nothing is found.
    pub(crate) fn with_room(alloc: Global, variables: u32, inputs: u32) -> Result<Finding, Memory>
        requires { variables ≤ most_variables }
        ensures { IfOk result (HasRooms variables inputs) }
    {
        let room = variables as usize;
        Ok(Finding {
            variables,
            rounds_a: 0,
            rounds_b: 0,
            rows: Rows::with_room(alloc, room)?,
            input: Bits::with_room(alloc, inputs as usize)?,
            spread: Run::with_room(alloc, room, room)?,
            settle: Run::with_room(alloc, 2 * room, 2 * room)?,
            cycle: Run::with_room(alloc, 4 * room, 4 * room)?,
            spread_races: 0,
            settle_races: 0,
            cycle_races: 0,
        })
    }
}
