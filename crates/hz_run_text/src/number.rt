// Decimal numbers.

ghost use Rattle.std.specs.Prelude.{◌≡◌, ◌<◌, IsTrue, MatchOption};
ghost use Rattle.std.specs.List.{list_all};
ghost use Rattle.hz_text.specs.Decimal.{is_digit, is_decimal, number_by, count_of};

/// Whether the word is a decimal number without leading zero.
pub fn is_decimal(word: &[u8]) -> bool
    ensures { result ≡ is_decimal word.now }
{
    let [first, later @ ..] = word else {
        return false;
    };
    are_digits(word) && (*first != b'0' || later.is_empty())
}

// Whether the word has digits alone.
fn are_digits(word: &[u8]) -> bool
    ensures { result ≡ list_all is_digit word.now }
{
    word.iter().all(|byte| byte.is_ascii_digit())
}

/// The number that digits stand for, if it is not above the most.
pub fn number_within(digits: &[u8], most: u32) -> Option<u32>
    requires { IsTrue (list_all is_digit digits.now) }
    ensures { MatchOption result (most < number_by digits.now)
        (λ number. number ≡ number_by digits.now) }
{
    let mut number: u64 = 0;
    for digit in digits {
        number = 10 * number + (*digit - b'0') as u64;
        if number > most as u64 {
            return None;
        }
    }
    Some(number as u32)
}

// The number that a word is, without leading zero, if it is one of 32 bits.
pub(crate) fn read_count(word: &[u8]) -> Option<u32>
    ensures { result ≡ count_of word.now }
{
    if is_decimal(word) {
        number_within(word, u32::MAX)
    } else {
        None
    }
}
