//! The words of the feedback-free variables, one after the other in their order.
ghost use Rattle.std.specs.Prelude.{◌≡◌, ℕ, ◌<◌, ◌≤◌, Some, [], ◌∷◌, length, map, IsTrue, All};
ghost use Rattle.hz_core.specs.Gate.{takes};
ghost use Rattle.hz_core.specs.Limits.{most_gate_pins};
ghost use Rattle.hz_word.specs.Capped.{capped_word};
ghost use Rattle.hz_free.specs.VariableWords.{input_word};
ghost use Rattle.hz_free.specs.CappedWords.{HasCountedWord, IsGateWord};
ghost use Rattle.hz_word.specs.Capped.{greatest_cap};

use crate::packed::StoredWord;
use hz_core::{Kind, MAX_PINS};
use hz_word::{Count, Word, fold};

// The word of a variable that keeps its value.
pub(crate) fn constant_word(value: bool) -> Word
    ensures { (cap : ℕ) → capped_word cap (value ∷ []) ≡ result }
{
    Word {
        first: value,
        changes: Count::Exact(0),
    }
}

// The word of an input: its value at the start, and one change if the new input differs.
pub(crate) fn input_word(old: bool, new: bool) -> Word
    ensures { (cap : ℕ) → 1 ≤ cap → capped_word cap (input_word old new) ≡ result }
{
    Word {
        first: old,
        changes: Count::Exact(u64::from(old != new)),
    }
}

/// Room for a word.
pub(crate) const NO_WORD: Word = Word {
    first: false,
    changes: Count::Exact(0),
};

// The word of a gate, given those of its wires. The pins are room for them; few gates have more.
#[inline(always)]
pub(crate) fn gate_word<S: StoredWord>(kind: Kind, wires: &[S], cap: u64, pins: &mut [Word]) -> Word
    requires takes { IsTrue (takes kind (length wires.now)) }
    requires counted { All (HasCountedWord cap) (map S.word_in wires.now) }
    requires cap_low { 1 ≤ cap }
    requires cap_high { cap ≤ greatest_cap }
    requires few { length wires.now ≤ most_gate_pins }
    ensures { IsGateWord kind (map S.word_in wires.now) cap result }
{
    if wires.len() > pins.len() {
        return wide_gate_word(kind, wires, cap);
    }
    fold_wires(kind, wires, cap, pins)
}

// The same of a gate with more pins.
#[cold]
fn wide_gate_word<S: StoredWord>(kind: Kind, wires: &[S], cap: u64) -> Word
    requires takes { IsTrue (takes kind (length wires.now)) }
    requires counted { All (HasCountedWord cap) (map S.word_in wires.now) }
    requires cap_low { 1 ≤ cap }
    requires cap_high { cap ≤ greatest_cap }
    requires few { length wires.now ≤ most_gate_pins }
    ensures { IsGateWord kind (map S.word_in wires.now) cap result }
{
    fold_wires(kind, wires, cap, &mut [NO_WORD; MAX_PINS])
}

// The same, if there is room.
#[inline(always)]
fn fold_wires<S: StoredWord>(kind: Kind, wires: &[S], cap: u64, pins: &mut [Word]) -> Word
    requires takes { IsTrue (takes kind (length wires.now)) }
    requires counted { All (HasCountedWord cap) (map S.word_in wires.now) }
    requires cap_low { 1 ≤ cap }
    requires cap_high { cap ≤ greatest_cap }
    requires room { length wires.now ≤ length pins.old }
    ensures { IsGateWord kind (map S.word_in wires.now) cap result }
{
    let pins = &mut pins[..wires.len()];
    gather(wires, pins, cap);
    fold(kind, pins, cap)
}

// The words of wires that all have one.
fn gather<S: StoredWord>(wires: &[S], pins: &mut [Word], cap: u64)
    requires counted { All (HasCountedWord cap) (map S.word_in wires.now) }
    requires room { length pins.old ≡ length wires.now }
    ensures { map Some pins.new ≡ map S.word_in wires.now }
{
    for pin in 0..wires.len() {
        pins[pin] = wires[pin].get().unwrap();
    }
}
