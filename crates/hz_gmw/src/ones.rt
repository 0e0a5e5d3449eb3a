//! The value of a gate by how many of its pins are 1.
ghost use Rattle.std.specs.Prelude.{◌≡◌, Bool, List, length, count_by, IsTrue};
ghost use Rattle.hz_core.specs.Gate.{takes, gate_value};

use hz_core::Kind;

/// The value of the gate function on any bits of which that many are 1. Every gate function is symmetric in its pins.
pub(crate) fn value_of_ones(kind: Kind, ones: u32, pins: u32) -> bool
    requires { IsTrue (takes kind pins) }
    ensures { (bits : List Bool) → length bits ≡ pins → count_by (λ bit. bit) bits ≡ ones
        → result ≡ gate_value kind bits }
{
    match kind {
        Kind::And => ones == pins,
        Kind::Nand => ones != pins,
        Kind::Or => ones != 0,
        Kind::Nor => ones == 0,
        Kind::Xor => ones % 2 == 1,
        Kind::Xnor => ones % 2 != 1,
        Kind::Not => ones == 0,
        Kind::Buff => ones != 0,
    }
}
