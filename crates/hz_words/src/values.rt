//! What the arguments may be.
ghost use Rattle.std.specs.Prelude.{◌≡◌, ◌≤◌, ◌<◌, IfSome};
ghost use Rattle.hz_options.specs.Numbers.{IsDemoNumber, IsCap};
ghost use Rattle.hz_words.specs.Values.{number_up_to, cap_of, show_of, demo_of, begins_with_digit};

use hz_options::{MAX_CAP, MAX_DEMO_NUMBER, Show};

// The cap that a text stands for: a number of 1 to [`MAX_CAP`].
pub(crate) fn read_cap(text: &str) -> Option<u64>
    ensures value { result ≡ cap_of text.now }
    ensures cap { IfSome result IsCap }
{
    read_number(text, MAX_CAP)
}

// The number of a generated circuit that a text stands for: digits of which the first is not 0.
pub(crate) fn read_demo(text: &str) -> Option<u32>
    ensures value { result ≡ demo_of text.now }
    ensures number { IfSome result IsDemoNumber }
{
    if !begins_with_digit(text) {
        return None;
    }
    let number = read_number(text, u64::from(MAX_DEMO_NUMBER))?;
    Some(number as u32)
}

// Whether the first byte of a text is a digit other than 0.
fn begins_with_digit(text: &str) -> bool
    ensures { result ≡ begins_with_digit text.now }
{
    match text.as_bytes().first() {
        Some(byte) => (b'1'..=b'9').contains(byte),
        None => false,
    }
}

// The number of 1 to a greatest one that a text stands for.
fn read_number(text: &str, most: u64) -> Option<u64>
    ensures value { result ≡ number_up_to most text.now }
    ensures least { IfSome result (λ number. 1 ≤ number) }
    ensures most { IfSome result (λ number. number ≤ most) }
{
    match text.parse::<u64>() {
        Ok(number) if (1..=most).contains(&number) => Some(number),
        _ => None,
    }
}

// The variables that a text stands for.
pub(crate) fn read_show(text: &str) -> Option<Show>
    ensures { result ≡ show_of text.now }
{
    match text {
        "nodes" => Some(Show::Nodes),
        "all" => Some(Show::All),
        _ => None,
    }
}
