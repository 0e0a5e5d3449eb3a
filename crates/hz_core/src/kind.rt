ghost use Rattle.std.specs.Prelude.{◌≡◌, IsTrue, length};
ghost use Rattle.std.specs.List.{fold, list_all, list_any};
ghost use Rattle.hz_core.specs.Gate.{takes, gate_value, every_pin, some_pin, odd_pins};
ghost use Rattle.hz_core.specs.Extension.{extension, IsExtension};
ghost use Rattle.hz_core.specs.Kleene.{and_of, or_of, xor_of};
ghost use Rattle.hz_core.specs.Ternary.{admits};

use crate::tri::Tri;

mod pattern;

/// The most pins of a gate.
pub const MAX_PINS: usize = 256;

/// The kind of a gate. `Buff` is the buffer, as .bench files spell it.
#[derive(Clone, Copy, Debug, PartialEq, Eq, Hash)]
pub enum Kind {
    And,
    Nand,
    Or,
    Nor,
    Xor,
    Xnor,
    Not,
    Buff,
}

impl Kind {
    /// Whether a gate of this kind may have that many pins.
    pub fn takes(self, pins: usize) -> bool
        ensures { result ≡ takes self pins }
    {
        match self {
            Kind::Not | Kind::Buff => pins == 1,
            _ => (1..=MAX_PINS).contains(&pins),
        }
    }

    /// The value of the gate function if the pins have these bits.
    pub fn eval(self, pins: &[bool]) -> bool
        requires { IsTrue (takes self (length pins.now)) }
        ensures { result ≡ gate_value self pins.now }
    {
        match self {
            Kind::And => every(pins),
            Kind::Nand => !every(pins),
            Kind::Or => some(pins),
            Kind::Nor => !some(pins),
            Kind::Xor => odd(pins),
            Kind::Xnor => !odd(pins),
            Kind::Not => !pins[0],
            Kind::Buff => pins[0],
        }
    }

    /// The value of the ternary extension, the least that is above the gate's value on each list of
    /// bits that the pins may have: X only if these values differ.
    #[tactic(auto, using(crate::proofs::Extensions::joined))]
    pub fn eval3(self, pins: &[Tri]) -> Tri
        requires { IsTrue (takes self (length pins.now)) }
        ensures value { result ≡ extension self pins.now }
        ensures join { IsExtension self pins.now result }
    {
        self.extended(pins)
    }

    // By Kleene's connectives.
    #[tactic(auto, using(crate::proofs::Kleene::kleene))]
    fn extended(self, pins: &[Tri]) -> Tri
        requires { IsTrue (takes self (length pins.now)) }
        ensures { result ≡ extension self pins.now }
    {
        match self {
            Kind::And => conjunction(pins),
            Kind::Nand => conjunction(pins).complement(),
            Kind::Or => disjunction(pins),
            Kind::Nor => disjunction(pins).complement(),
            Kind::Xor => parity(pins),
            Kind::Xnor => parity(pins).complement(),
            Kind::Not => pins[0].complement(),
            Kind::Buff => pins[0],
        }
    }
}

fn every(pins: &[bool]) -> bool
    ensures { result ≡ every_pin pins.now }
{
    pins.iter().all(|pin| *pin)
}

fn some(pins: &[bool]) -> bool
    ensures { result ≡ some_pin pins.now }
{
    pins.iter().any(|pin| *pin)
}

fn odd(pins: &[bool]) -> bool
    ensures { result ≡ odd_pins pins.now }
{
    pins.iter().filter(|pin| **pin).count() % 2 == 1
}

// 0 if some pin is 0, so does not admit 1; 1 if no pin admits 0. It stops at the first pin that tells.
fn conjunction(pins: &[Tri]) -> Tri
    ensures { result ≡ fold and_of Tri.One pins.now }
{
    if !all_admit(pins, true) {
        return Tri::Zero;
    }
    if some_admits(pins, false) {
        Tri::Unknown
    } else {
        Tri::One
    }
}

// 1 if some pin is 1, so does not admit 0; 0 if no pin admits 1.
fn disjunction(pins: &[Tri]) -> Tri
    ensures { result ≡ fold or_of Tri.Zero pins.now }
{
    if !all_admit(pins, false) {
        return Tri::One;
    }
    if some_admits(pins, true) {
        Tri::Unknown
    } else {
        Tri::Zero
    }
}

// Whether all pins admit a bit.
fn all_admit(pins: &[Tri], bit: bool) -> bool
    ensures { result ≡ list_all (λ pin. admits pin bit) pins.now }
{
    pins.iter().all(|pin| pin.admits(bit))
}

// Whether some pin admits a bit.
fn some_admits(pins: &[Tri], bit: bool) -> bool
    ensures { result ≡ list_any (λ pin. admits pin bit) pins.now }
{
    pins.iter().any(|pin| pin.admits(bit))
}

fn parity(pins: &[Tri]) -> Tri
    ensures { result ≡ fold xor_of Tri.Zero pins.now }
{
    pins.iter().fold(Tri::Zero, |value, pin| value.xor(*pin))
}
