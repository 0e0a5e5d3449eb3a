// Words of bits: a letter for each input.

ghost use Rattle.std.specs.Prelude.{◌≡◌, ◌≤◌, ◌++◌, ◌&&◌, length, nat_le, OnOk};
ghost use Rattle.std.specs.List.{list_all};
ghost use Rattle.hz_pattern_text.specs.PatternInside.{letter_bits};
ghost use Rattle.hz_pattern_text.specs.PatternWord.{is_bit_letter, is_bits_word};

use hz_core::Memory;

// Whether a word is one of so many bits. Without inputs it is `-`.
pub(crate) fn is_bits_word(word: &[u8], inputs: usize) -> bool
    ensures { result ≡ is_bits_word inputs word.now }
{
    if inputs == 0 {
        word == b"-".as_slice()
    } else {
        word.len() == inputs && are_bit_letters(word)
    }
}

// Whether each letter is `0` or `1`. It looks at all letters, whatever they are, so that many are compared at once.
fn are_bit_letters(word: &[u8]) -> bool
    ensures { result ≡ list_all is_bit_letter word.now }
{
    let mut most = 0;
    for letter in word {
        most = farther(most, *letter);
    }
    most <= 1
}

// The greater one of a distance and of a letter's distance from `0`. Bits have distances up to 1.
fn farther(most: u8, letter: u8) -> u8
    ensures { nat_le result 1 ≡ (nat_le most 1 && is_bit_letter letter) }
{
    most.max(letter.wrapping_sub(b'0'))
}

// Adds the bits of the first so many letters.
pub(crate) fn push_bits(bits: &mut Vec<bool>, word: &[u8], inputs: usize) -> Result<(), Memory>
    requires { inputs ≤ length word.now }
    ensures { OnOk result (bits.new.items ≡ bits.old.items ++ letter_bits inputs word.now) }
{
    bits.extend(word[..inputs].iter().map(|letter| *letter == b'1'))?;
    Ok(())
}
