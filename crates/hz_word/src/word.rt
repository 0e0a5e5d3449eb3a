ghost use Rattle.std.specs.Prelude.{◌≡◌, ◌↔◌, ℕ, Bool, List, map, not, IsNone, IfSome};
ghost use Rattle.hz_word.specs.Word.{IsWord, last_letter};
ghost use Rattle.hz_word.specs.Capped.{capped_word, complement};
ghost use Rattle.hz_word.specs.Pairs.{constant_word, is_constant, last_after};

use crate::count::Count;

/// A transient of Brzozowski and Ésik's algebra: a nonempty binary word without equal neighbours, kept as its
/// first letter and the number of its changes.
#[derive(Clone, Copy, Debug, PartialEq, Eq)]
pub struct Word {
    pub first: bool,
    pub changes: Count,
}

impl Word {
    /// The word of the complemented letters.
    pub fn not(self) -> Word
        ensures value { result ≡ complement self }
        ensures letters { (cap : ℕ) (letters : List Bool) → IsWord letters →
            capped_word cap letters ≡ self →
            capped_word cap (map not letters) ≡ result }
    {
        Word {
            first: !self.first,
            changes: self.changes,
        }
    }

    /// The last letter, if the number of changes is exact.
    pub fn last(self) -> Option<bool>
        ensures none { IsNone result ↔ (self.changes ≡ Count.Many) }
        ensures letter { (cap : ℕ) (letters : List Bool) → IsWord letters →
            capped_word cap letters ≡ self →
            IfSome result (λ letter. letter ≡ last_letter letters) }
    {
        match self.changes {
            Count::Exact(changes) => Some(last_after(self.first, changes)),
            Count::Many => None,
        }
    }

    // The word of one letter alone.
    pub(crate) fn constant(letter: bool) -> Word
        ensures { result ≡ constant_word letter }
    {
        Word {
            first: letter,
            changes: Count::Exact(0),
        }
    }

    // Whether it is the word of this letter alone.
    pub(crate) fn is_constant(self, letter: bool) -> bool
        ensures { result ≡ is_constant letter self }
    {
        match self.changes {
            Count::Exact(changes) => changes == 0 && self.first == letter,
            Count::Many => false,
        }
    }
}

// The last letter of the word with this first letter and that many changes.
pub(crate) fn last_after(first: bool, changes: u64) -> bool
    ensures { result ≡ last_after first changes }
{
    first != (changes % 2 == 1)
}
