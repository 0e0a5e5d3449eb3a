//! The codes by which a dump names variables.
ghost use Rattle.std.specs.Prelude.{◌≡◌, ◌+◌, ◌<◌, ◌∷◌, []};
ghost use Rattle.hz_core.specs.Limits.{most_variables};
ghost use Rattle.hz_write.specs.Writer.{Writes};
ghost use Rattle.hz_vcd.specs.Code.{code_of};
ghost use Rattle.hz_vcd.specs.Reading.{IsCodeRead, IsDigitRead};

use hz_outside::Sink;
use hz_write::Writer;

// The base of codes, and its square.
const BASE: u32 = 94;

const BASE_SQUARED: u32 = BASE * BASE;

/// Gives the code of a variable. No network has more than 200,000 variables, so three digits are enough.
pub(crate) fn write_code<K: Sink>(writer: &mut Writer<'_, K>, var: u32)
    requires { var < most_variables }
    ensures { Writes K.output K.faults (code_of var) writer.old writer.new }
{
    if var < BASE {
        writer.text(&[digit(var)]);
    } else if var < BASE_SQUARED {
        writer.text(&[digit(var / BASE), digit(var % BASE)]);
    } else {
        writer.text(&[
            digit(var / BASE / BASE),
            digit(var / BASE % BASE),
            digit(var % BASE),
        ]);
    }
}

// The byte of a digit.
fn digit(value: u32) -> u8
    requires { value < 94 }
    ensures { result ≡ 33 + value }
{
    b'!' + value as u8
}

/// The variable of a code, if it is one of up to three digits.
pub(crate) fn read_code(code: &[u8]) -> Option<u32>
    ensures { IsCodeRead code.now result }
{
    match code {
        [a] => one_digit(*a),
        [a, b] => two_digits(*a, *b),
        [a, b, c] => three_digits(*a, *b, *c),
        _ => None,
    }
}

// The variable of a code of one digit.
fn one_digit(a: u8) -> Option<u32>
    ensures { IsCodeRead (a ∷ []) result }
{
    digit_of(a)
}

// The variable of a code of two digits.
fn two_digits(a: u8, b: u8) -> Option<u32>
    ensures { IsCodeRead (a ∷ b ∷ []) result }
{
    let high = digit_of(a)?;
    let low = digit_of(b)?;
    if high == 0 {
        return None;
    }
    Some(high * BASE + low)
}

// The variable of a code of three digits.
fn three_digits(a: u8, b: u8, c: u8) -> Option<u32>
    ensures { IsCodeRead (a ∷ b ∷ c ∷ []) result }
{
    let high = digit_of(a)?;
    let middle = digit_of(b)?;
    let low = digit_of(c)?;
    if high == 0 {
        return None;
    }
    Some((high * BASE + middle) * BASE + low)
}

// The digit of a byte, if it has one.
fn digit_of(byte: u8) -> Option<u32>
    ensures { IsDigitRead byte result }
{
    if byte < b'!' || byte > b'~' {
        return None;
    }
    Some((byte - b'!') as u32)
}
