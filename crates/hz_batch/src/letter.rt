//! The letter of a value.
ghost use Rattle.std.specs.Prelude.{◌≡◌, [], ◌∷◌};
ghost use Rattle.hz_core.specs.Letters.{tri_letter};

use hz_core::Tri;
use std::marker::Model;

/// The letter of a value: `0`, `1` or `X`. It is seen as the value.
#[derive(Clone, Copy, Debug)]
pub(crate) struct Letter {
    byte: u8,
}

impl Model for Letter {
    ghost use Rattle.std.specs.Prelude.{◌≡◌};
    ghost use Rattle.hz_core.specs.declared.tri.Tri.{Tri};
    ghost use Rattle.hz_batch.specs.Letters.{letter_byte, letter_value};

    ghost Value = { Tri };

    ghost view = { λ letter. letter_value letter.byte };

    ghost invariant = { λ letter. letter_byte (letter_value letter.byte) ≡ letter.byte };

    ghost inverse = { λ value. record { byte = letter_byte value } };

    ghost inverse_ok = { λ letter whole dim. record { byte = whole dim } };
}

impl Letter {
    /// The letter of a value.
    pub(crate) fn of(value: Tri) -> Letter
        ensures { result ≡ value }
    {
        match value {
            Tri::Zero => Letter { byte: b'0' },
            Tri::One => Letter { byte: b'1' },
            Tri::Unknown => Letter { byte: b'X' },
        }
    }

    // The letter as a byte of a text.
    #[inline(always)]
    pub(crate) fn byte(self) -> u8
        ensures { tri_letter self ≡ result ∷ [] }
    {
        self.byte
    }
}
