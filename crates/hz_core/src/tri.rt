ghost use Rattle.std.specs.Prelude.{◌≡◌};
ghost use Rattle.hz_core.specs.Ternary.{tri_of, known_bit, admits, join_of};
ghost use Rattle.hz_core.specs.Kleene.{complement_of, xor_of};

/// A ternary value: 0, 1 or X, which stands for "0 or 1, nobody knows which".
#[derive(Clone, Copy, Debug, PartialEq, Eq, Hash)]
pub enum Tri {
    Zero,
    One,
    Unknown,
}

impl Tri {
    /// The value of a known bit.
    pub fn of(bit: bool) -> Tri
        ensures { result ≡ tri_of bit }
    {
        if bit { Tri::One } else { Tri::Zero }
    }

    /// The bit, if it is known.
    pub fn bit(self) -> Option<bool>
        ensures { result ≡ known_bit self }
    {
        match self {
            Tri::Zero => Some(false),
            Tri::One => Some(true),
            Tri::Unknown => None,
        }
    }

    /// Whether the bit refines the value: X admits both bits.
    pub fn admits(self, bit: bool) -> bool
        ensures { result ≡ admits self bit }
    {
        match self {
            Tri::Zero => !bit,
            Tri::One => bit,
            Tri::Unknown => true,
        }
    }

    /// The least value above both: X unless they agree.
    pub fn join(self, other: Tri) -> Tri
        ensures { result ≡ join_of self other }
    {
        match (self, other) {
            (Tri::Zero, Tri::Zero) => Tri::Zero,
            (Tri::One, Tri::One) => Tri::One,
            _ => Tri::Unknown,
        }
    }

    /// The other bit, or X.
    pub(crate) fn complement(self) -> Tri
        ensures { result ≡ complement_of self }
    {
        match self {
            Tri::Zero => Tri::One,
            Tri::One => Tri::Zero,
            Tri::Unknown => Tri::Unknown,
        }
    }

    /// The sum modulo 2 of known bits, else X.
    pub(crate) fn xor(self, other: Tri) -> Tri
        ensures { result ≡ xor_of self other }
    {
        match self {
            Tri::Zero => other,
            Tri::One => other.complement(),
            Tri::Unknown => Tri::Unknown,
        }
    }
}
