//! The digits of a number that is counted up. If all are made anew, `batch` on c17 takes 26 million instructions in place of 23.
ghost use Rattle.std.specs.Prelude.{◌≡◌, ◌≢◌, ◌+◌, ◌++◌, ◌%◌, ◌^◌, ◌<◌, ◌≤◌, IfOk, decimal, length, drop};

use hz_core::Memory;
use itoa::Buffer;
use std::alloc::Global;
use std::marker::Model;

/// The most digits of a number.
pub(crate) const MAX_DIGITS: usize = 10;

/// A number with its decimal digits.
#[derive(Drop)]
pub(crate) struct Digits {
    number: u32,
    // The digits stand at the end of these.
    bytes: Vec<u8>,
    begin: usize,
}

impl Model for Digits {
    ghost use Rattle.std.specs.Prelude.{ℕ};
    ghost use Rattle.hz_batch.specs.DigitsInside.{HoldsDigits};

    ghost Value = { ℕ };

    ghost view = { λ digits. digits.number };

    ghost invariant = { HoldsDigits };
}

impl Digits {
    // Those of 0.
    pub(crate) fn new(alloc: Global) -> Result<Digits, Memory>
        ensures { IfOk result (λ digits. digits ≡ 0) }
    {
        let bytes = vec![in alloc; b'0'; MAX_DIGITS]?;
        Ok(Digits {
            number: 0,
            bytes,
            begin: MAX_DIGITS - 1,
        })
    }

    // Writes the digits to the room in front of a text, which is as long as the most digits, and says
    // where they begin.
    #[inline(always)]
    pub(crate) fn put(&self, text: &mut [u8]) -> usize
        requires { 10 ≤ length text.old }
        ensures long { length text.new ≡ length text.old }
        ensures few { result ≤ 10 }
        ensures behind { drop 10 text.new ≡ drop 10 text.old }
        ensures digits { drop result text.new ≡ decimal self.now ++ drop 10 text.old }
    {
        text[..MAX_DIGITS].copy_from_slice(&self.bytes.as_slice()[..MAX_DIGITS]);
        self.begin
    }

    // Goes to another number. If it is the next one, mostly the last digit alone changes.
    #[inline(always)]
    pub(crate) fn count_to(&mut self, number: u32)
        ensures { self.new ≡ number }
    {
        if number > 10 && number - 1 == self.number && self.last() != b'9' {
            self.go_on();
        } else {
            self.begin_at(number);
        }
    }

    // The last digit, as a byte of a text.
    #[inline(always)]
    fn last(&self) -> u8
        ensures { 10 ≤ self.now → self.now + 1 < 2 ^ 32 → result ≡ 48 + self.now % 10 }
    {
        self.bytes[MAX_DIGITS - 1]
    }

    // Goes to the next number, which has the same digits but for the last one.
    #[inline(always)]
    fn go_on(&mut self)
        requires many { 10 ≤ self.old }
        requires other { self.old % 10 ≢ 9 }
        requires few { self.old + 1 < 2 ^ 32 }
        ensures { self.new ≡ self.old + 1 }
    {
        let next = self.last() + 1;
        self.number += 1;
        self.bytes[MAX_DIGITS - 1] = next;
    }

    // Goes to any number.
    #[inline(always)]
    fn begin_at(&mut self, number: u32)
        ensures { self.new ≡ number }
    {
        self.number = number;
        self.begin = write_digits(number, self.bytes.as_mut_slice());
    }
}

// Writes the digits of a number to the end of bytes, and says where they begin.
#[inline(never)]
fn write_digits(number: u32, bytes: &mut [u8]) -> usize
    requires { length bytes.old ≡ 10 }
    ensures long { length bytes.new ≡ 10 }
    ensures few { result ≤ 10 }
    ensures digits { drop result bytes.new ≡ decimal number }
{
    let mut buffer = Buffer::new();
    let digits = buffer.format(number).as_bytes();
    let begin = MAX_DIGITS - digits.len();
    bytes[begin..].copy_from_slice(digits);
    begin
}
