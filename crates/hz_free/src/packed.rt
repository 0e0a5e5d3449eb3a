//! Words as they are kept: a word or none, in as few bytes as it takes.
ghost use Rattle.std.specs.Prelude.{◌≡◌, Some, None, IsTrue};
ghost use Rattle.hz_word.specs.Capped.{IsWithinCap, greatest_cap};
ghost use Rattle.hz_free.specs.CappedWords.{constant_if};

use hz_word::{Count, Word};
use std::marker::Model;

// The code of no word.
const NO_CODE: u32 = 2_000_004;

// The code of a word with too many changes whose first letter is 0. That of the other one is next.
const MANY_CODE: u32 = 2_000_002;

/// A word or none, in four bytes.
///
/// It is seen as the word. The code of an exact one is twice its number of changes, and one more if its first letter is 1. It is below
/// the codes of the others, since no cap is greater than 1,000,000.
#[derive(Clone, Copy, Debug)]
pub struct PackedWord {
    code: u32,
}

impl Model for PackedWord {
    ghost use Rattle.std.specs.Prelude.{◌≡◌, Option};
    ghost use Rattle.hz_word.specs.declared.word.Word.{Word};
    ghost use Rattle.hz_free.specs.PackedWords.{code_of, word_of_code};

    ghost Value = { Option Word };

    ghost view = { λ fields. word_of_code fields.code };

    ghost invariant = { λ fields. code_of (word_of_code fields.code) ≡ fields.code };

    ghost inverse = { λ word. record { code = code_of word } };

    ghost inverse_ok = { λ fields whole dim. record { code = whole dim } };
}

impl PackedWord {
    /// No word.
    pub fn none() -> PackedWord
        ensures { result ≡ None }
    {
        PackedWord { code: NO_CODE }
    }

    /// A word whose number of changes, if it is exact, is at most the greatest cap.
    pub fn of(word: Word) -> PackedWord
        requires { IsWithinCap greatest_cap word.changes }
        ensures { result ≡ Some word }
    {
        let letter = u32::from(word.first);
        match word.changes {
            Count::Exact(changes) => PackedWord {
                code: changes as u32 * 2 + letter,
            },
            Count::Many => PackedWord {
                code: MANY_CODE + letter,
            },
        }
    }

    /// Whether it is the word of a variable that keeps this value, or no word if none is asked for.
    pub fn rests_at(self, value: bool, some: bool) -> bool
        ensures { IsTrue result → self ≡ constant_if some value }
    {
        self.code == if some { u32::from(value) } else { NO_CODE }
    }

    /// The word, if there is one.
    pub fn get(self) -> Option<Word>
        ensures { result ≡ self }
    {
        if self.code < MANY_CODE {
            return Some(Word {
                first: self.code % 2 == 1,
                changes: Count::Exact(u64::from(self.code / 2)),
            });
        }
        if self.code < NO_CODE {
            return Some(Word {
                first: self.code % 2 == 1,
                changes: Count::Many,
            });
        }
        None
    }
}

// What keeps a word or none.
pub(crate) trait StoredWord: Copy {
    ghost use Rattle.std.specs.Prelude.{Option};
    ghost use Rattle.hz_word.specs.declared.word.Word.{Word};

    // The word, if there is one.
    ghost word_in: { Self → Option Word };

    // No word.
    fn none() -> Self
        ensures { word_in result ≡ None };

    // A word whose number of changes, if it is exact, is at most the greatest cap.
    fn of(word: Word) -> Self
        requires { IsWithinCap greatest_cap word.changes }
        ensures { word_in result ≡ Some word };

    // The word, if there is one.
    fn get(self) -> Option<Word>
        ensures { result ≡ word_in self };
}

impl StoredWord for Option<Word> {
    ghost word_in = { λ word. word };

    fn none() -> Option<Word> {
        None
    }

    fn of(word: Word) -> Option<Word> {
        Some(word)
    }

    fn get(self) -> Option<Word> {
        self
    }
}

impl StoredWord for PackedWord {
    ghost word_in = { λ word. word };

    fn none() -> PackedWord {
        PackedWord::none()
    }

    fn of(word: Word) -> PackedWord {
        PackedWord::of(word)
    }

    fn get(self) -> Option<Word> {
        PackedWord::get(self)
    }
}
