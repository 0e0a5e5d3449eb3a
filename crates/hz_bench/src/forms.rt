// What a statement is, without its names.

ghost use Rattle.std.specs.Prelude.{◌≡◌, ◌∷◌, []};
ghost use Rattle.hz_bench.specs.Form.{form_named, names_no_kind, refuses_pins};
ghost use Rattle.hz_bench.specs.Statement.{kind_named, is_flip_flop, refuses_pin_count};

use hz_core::{Kind, MAX_PINS};
use hz_line::is_keyword;

/// Whether a node is an input, a flip-flop or a gate; of a gate its kind, if the word in the kind's
/// place names one.
#[derive(Clone, Copy, Debug)]
pub enum Form {
    Input,
    FlipFlop,
    Gate(Option<Kind>),
}

// The form of a flip-flop or a gate, by the word in the kind's place.
pub(crate) fn form_named(word: &[u8]) -> Form
    ensures { result ≡ form_named word.now }
{
    if is_flip_flop(word) {
        Form::FlipFlop
    } else {
        Form::Gate(kind_named(word))
    }
}

// Whether a word is that of a flip-flop, in any letter case.
#[tactic(auto, unfolding(crate::specs::Statement::is_flip_flop))]
fn is_flip_flop(word: &[u8]) -> bool
    ensures { result ≡ is_flip_flop word.now }
{
    is_keyword(word, b"DFF")
}

// The kind that a word names, in any letter case. No kind has more than four letters.
#[tactic(auto, unfolding(crate::specs::Statement::kind_named))]
fn kind_named(word: &[u8]) -> Option<Kind>
    ensures { result ≡ kind_named word.now }
{
    match *word {
        [a, b] => kind_of_two(a, b),
        [a, b, c] => kind_of_three(a, b, c),
        [a, b, c, d] => kind_of_four(a, b, c, d),
        _ => None,
    }
}

// The kind that a word of these two letters names.
#[tactic(auto, unfolding(crate::specs::Statement::kind_named))]
fn kind_of_two(a: u8, b: u8) -> Option<Kind>
    ensures { result ≡ kind_named (a ∷ b ∷ []) }
{
    match &[a.to_ascii_lowercase(), b.to_ascii_lowercase()] {
        b"or" => Some(Kind::Or),
        _ => None,
    }
}

// The kind that a word of these three letters names.
#[tactic(auto, unfolding(crate::specs::Statement::kind_named))]
fn kind_of_three(a: u8, b: u8, c: u8) -> Option<Kind>
    ensures { result ≡ kind_named (a ∷ b ∷ c ∷ []) }
{
    match &[
        a.to_ascii_lowercase(),
        b.to_ascii_lowercase(),
        c.to_ascii_lowercase(),
    ] {
        b"and" => Some(Kind::And),
        b"nor" => Some(Kind::Nor),
        b"xor" => Some(Kind::Xor),
        b"not" => Some(Kind::Not),
        b"buf" => Some(Kind::Buff),
        _ => None,
    }
}

// The kind that a word of these four letters names.
#[tactic(auto, unfolding(crate::specs::Statement::kind_named))]
fn kind_of_four(a: u8, b: u8, c: u8, d: u8) -> Option<Kind>
    ensures { result ≡ kind_named (a ∷ b ∷ c ∷ d ∷ []) }
{
    match &[
        a.to_ascii_lowercase(),
        b.to_ascii_lowercase(),
        c.to_ascii_lowercase(),
        d.to_ascii_lowercase(),
    ] {
        b"nand" => Some(Kind::Nand),
        b"xnor" => Some(Kind::Xnor),
        b"buff" => Some(Kind::Buff),
        _ => None,
    }
}

impl Form {
    pub(crate) fn is_unknown(self) -> bool
        ensures { result ≡ names_no_kind self }
    {
        match self {
            Form::Gate(kind) => kind.is_none(),
            Form::Input | Form::FlipFlop => false,
        }
    }

    pub(crate) fn refuses_pins(self, pins: usize) -> bool
        ensures { result ≡ refuses_pins self pins }
    {
        match self {
            Form::Input => false,
            Form::FlipFlop => pins != 1,
            Form::Gate(kind) => refuses(kind, pins),
        }
    }
}

// Whether a gate of this kind does not allow that many pins.
fn refuses(kind: Option<Kind>, pins: usize) -> bool
    ensures { result ≡ refuses_pin_count kind pins }
{
    match kind {
        Some(kind) => !kind.takes(pins),
        None => pins > MAX_PINS,
    }
}
