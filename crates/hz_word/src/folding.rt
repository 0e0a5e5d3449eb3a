ghost use Rattle.std.specs.Prelude.{◌≡◌, ◌≤◌, false, not, IsTrue, length};
ghost use Rattle.std.specs.List.{fold, All};
ghost use Rattle.hz_core.specs.Gate.{takes};
ghost use Rattle.hz_word.specs.Capped.{IsWithinCap, IsFold};
ghost use Rattle.hz_word.specs.Pairs.{controlled_count, controlled_pair, constant_word, is_constant, kind_word, parity_pair};
ghost use Rattle.hz_word.specs.Capped.{greatest_cap};

use crate::count::Count;
use crate::word::{Word, last_after};
use hz_core::Kind;

/// The word of a gate, given the words of its pins: how often the gate may change at most, in whatever order its
/// pins change.
#[inline(always)]
pub fn fold(kind: Kind, pins: &[Word], cap: u64) -> Word
    requires pins { IsTrue (takes kind (length pins.now)) }
    requires counted { All (λ pin. IsWithinCap cap pin.changes) pins.now }
    requires cap_low { 1 ≤ cap }
    requires cap_high { cap ≤ greatest_cap }
    ensures { IsFold kind pins.now cap result }
{
    pin_by_pin(kind, pins, cap)
}

// By its connective, pin by pin.
#[inline(always)]
fn pin_by_pin(kind: Kind, pins: &[Word], cap: u64) -> Word
    requires pins { IsTrue (takes kind (length pins.now)) }
    requires counted { All (λ pin. IsWithinCap cap pin.changes) pins.now }
    requires cap_high { cap ≤ greatest_cap }
    ensures { result ≡ kind_word kind cap pins.now }
{
    match kind {
        Kind::And => controlled(false, pins, cap),
        Kind::Nand => controlled(false, pins, cap).not(),
        Kind::Or => controlled(true, pins, cap),
        Kind::Nor => controlled(true, pins, cap).not(),
        Kind::Xor => parity(pins, cap),
        Kind::Xnor => parity(pins, cap).not(),
        Kind::Not => pins[0].not(),
        Kind::Buff => pins[0],
    }
}

// A gate with a controlling letter, which alone gives the gate its value: 0 for AND, 1 for OR.
fn controlled(controlling: bool, pins: &[Word], cap: u64) -> Word
    requires counted { All (λ pin. IsWithinCap cap pin.changes) pins.now }
    requires cap_high { cap ≤ greatest_cap }
    ensures { result
        ≡ fold (controlled_pair controlling cap) (constant_word (not controlling)) pins.now }
{
    let mut so_far = Word::constant(!controlling);
    for pin in pins {
        so_far = controlled_pair(so_far, *pin, controlling, cap);
    }
    so_far
}

// The parity of the pins.
fn parity(pins: &[Word], cap: u64) -> Word
    requires counted { All (λ pin. IsWithinCap cap pin.changes) pins.now }
    requires cap_high { cap ≤ greatest_cap }
    ensures { result ≡ fold (parity_pair cap) (constant_word false) pins.now }
{
    let mut so_far = Word::constant(false);
    for pin in pins {
        so_far = parity_pair(so_far, *pin, cap);
    }
    so_far
}

// The word of such a gate over two pins. A pin that has the controlling letter alone fixes it.
fn controlled_pair(left: Word, right: Word, controlling: bool, cap: u64) -> Word
    requires counted_left { IsWithinCap cap left.changes }
    requires counted_right { IsWithinCap cap right.changes }
    requires cap_high { cap ≤ greatest_cap }
    ensures value { result ≡ controlled_pair controlling cap left right }
    ensures counted { IsWithinCap cap result.changes }
{
    if left.is_constant(controlling) || right.is_constant(controlling) {
        return Word::constant(controlling);
    }
    let first = if left.first == controlling {
        controlling
    } else {
        right.first
    };
    Word {
        first,
        changes: controlled_count(left, right, controlling, cap),
    }
}

// The changes of two words of which neither is the controlling letter alone. While one rests on its other letter, the gate
// follows the other one, so the changes add up. But if both begin with the controlling letter, the first change of one is
// hidden, and if both end with it, the last change of one.
fn controlled_count(left: Word, right: Word, controlling: bool, cap: u64) -> Count
    requires counted_left { IsWithinCap cap left.changes }
    requires counted_right { IsWithinCap cap right.changes }
    requires cap_high { cap ≤ greatest_cap }
    requires free_left { is_constant controlling left ≡ false }
    requires free_right { is_constant controlling right ≡ false }
    ensures value { result
        ≡ controlled_count controlling cap left.first right.first left.changes right.changes }
    ensures counted { IsWithinCap cap result }
{
    match (left.changes, right.changes) {
        (Count::Exact(of_left), Count::Exact(of_right)) => {
            let both_begin = left.first == controlling && right.first == controlling;
            let last_left = last_after(left.first, of_left);
            let last_right = last_after(right.first, of_right);
            let both_end = last_left == controlling && last_right == controlling;
            let changes = of_left + of_right - u64::from(both_begin) - u64::from(both_end);
            Count::capped(changes, cap)
        }
        (Count::Exact(_), Count::Many) => Count::Many,
        (Count::Many, Count::Exact(_)) => Count::Many,
        (Count::Many, Count::Many) => Count::Many,
    }
}

// The word of the parity of two pins.
fn parity_pair(left: Word, right: Word, cap: u64) -> Word
    requires counted_left { IsWithinCap cap left.changes }
    requires counted_right { IsWithinCap cap right.changes }
    requires cap_high { cap ≤ greatest_cap }
    ensures value { result ≡ parity_pair cap left right }
    ensures counted { IsWithinCap cap result.changes }
{
    Word {
        first: left.first != right.first,
        changes: left.changes.plus(right.changes, cap),
    }
}
