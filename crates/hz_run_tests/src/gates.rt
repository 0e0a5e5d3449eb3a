//! The gates by tables that were made by hand.
ghost use Rattle.std.specs.Prelude.{◌≡◌, true, IsTrue, length};
ghost use Rattle.hz_core.specs.Gate.{takes};
ghost use Rattle.hz_core.specs.Pattern.{IsCandidate};

use hz_core::{Kind, Tri};
use hz_samples::{letter_of, value_of};
use std::alloc::Global;
use std::test::Fail;

const KINDS: [Kind; 8] = [
    Kind::And,
    Kind::Nand,
    Kind::Or,
    Kind::Nor,
    Kind::Xor,
    Kind::Xnor,
    Kind::Not,
    Kind::Buff,
];

// The values of gates of all kinds, in the order of `KINDS`. A kind that doesn't take so many pins has a dash.
fn values_of_gates(alloc: Global, pins: &str) -> Result<String, Fail> {
    let mut values = Vec::new(alloc);
    for letter in pins.chars() {
        values.push(value_of(letter))?;
    }
    let mut text = String::new(alloc);
    for kind in KINDS {
        text.push(value_of_gate(kind, values.as_slice()))?;
    }
    Ok(text)
}

fn value_of_gate(kind: Kind, pins: &[Tri]) -> char {
    if !kind.takes(pins.len()) {
        return '-';
    }
    letter_of(kind.eval3(pins))
}

#[test]
fn gates_have_the_values_of_their_tables(rt: HostRuntime) -> Result<(), Fail> {
    let rows = [
        ("", "--------"),
        ("0", "01010110"),
        ("1", "10101001"),
        ("X", "XXXXXXXX"),
        ("01", "011010--"),
        ("11", "101001--"),
        ("0X", "01XXXX--"),
        ("1X", "XX10XX--"),
        ("110", "011001--"),
        ("111", "101010--"),
        ("1X0", "0110XX--"),
    ];
    for (pins, values) in rows {
        let found = values_of_gates(rt.alloc(), pins)?;
        assert_eq!(rt; found.as_str(), values, "{pins}");
    }
    Ok(())
}

// Whether the list agrees with `now` at every pin that is not free, and gives the gate the value.
fn is_candidate(kind: Kind, now: &[bool], free: &[bool], want: bool, list: &[bool]) -> bool
    requires takes { IsTrue (takes kind (length now.now)) }
    requires free_length { length free.now ≡ length now.now }
    requires list_length { length list.now ≡ length now.now }
    ensures { result ≡ true → IsCandidate kind now.now free.now want list.now }
{
    for pin in 0..now.len() {
        if !free[pin] && list[pin] != now[pin] {
            return false;
        }
    }
    kind.eval(list) == want
}

// Whether a pattern is the one that is chosen.
fn is_chosen(kind: Kind, now: [bool; 3], free: [bool; 3], want: bool, pattern: [bool; 3]) -> bool {
    if !kind.takes(3) || !is_candidate(kind, &now, &free, want, &pattern) {
        return false;
    }
    let mut to = [false; 3];
    kind.choose(&now, &free, want, &mut to);
    to == pattern
}

#[test]
fn the_fewest_and_least_pins_change(rt: HostRuntime) {
    const O: bool = false;
    const I: bool = true;
    let rows = [
        (Kind::And, [O, I, I], [I, I, I], false, [O, I, I]),
        (Kind::And, [I, I, I], [O, I, I], false, [I, O, I]),
        (Kind::Nand, [I, O, O], [O, I, I], false, [I, I, I]),
        (Kind::Or, [O, O, O], [O, I, I], true, [O, I, O]),
        (Kind::Nor, [O, I, I], [O, I, I], true, [O, O, O]),
        (Kind::Xor, [I, I, O], [O, I, I], true, [I, O, O]),
        (Kind::Xnor, [I, I, O], [O, O, I], false, [I, I, I]),
    ];
    for (kind, now, free, want, pattern) in rows {
        assert!(rt;
            is_chosen(kind, now, free, want, pattern),
            "{kind:?} of {now:?}"
        );
    }
}
