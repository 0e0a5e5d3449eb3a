// The words of a line.

ghost use Rattle.std.specs.Prelude.{◌≡◌, ◌≤◌, false, length};
ghost use Rattle.std.specs.List.{list_any, position_or_len};
ghost use Rattle.hz_blif.specs.Text.{is_blank, words_of_line};
ghost use Rattle.hz_blif.specs.Fault.{is_forbidden, is_sign};
ghost use Rattle.hz_blif.specs.Reading.{IsFirstWord, begins_blank};

/// The first word of a line, and the line after it.
#[inline]
pub(crate) fn first_word<'a>(line: &'a [u8]) -> Option<(&'a [u8], &'a [u8])>
    ensures { IsFirstWord line.now result }
{
    let rest = without_blanks(line);
    let len = word_len(rest);
    if len == 0 {
        None
    } else {
        Some(rest.split_at(len))
    }
}

// A line without the blanks at its front.
#[inline]
fn without_blanks<'a>(line: &'a [u8]) -> &'a [u8]
    ensures same { words_of_line line.now ≡ words_of_line result.now }
    ensures all { begins_blank result.now ≡ false }
    ensures within { length result.now ≤ length line.now }
{
    let mut rest = line;
    while let [first, others @ ..] = rest {
        if !is_blank(*first) {
            return rest;
        }
        rest = others;
    }
    rest
}

// How many bytes stand before the first blank.
#[inline]
fn word_len(line: &[u8]) -> usize
    ensures value { result ≡ position_or_len is_blank line.now }
    ensures within { result ≤ length line.now }
{
    for (index, byte) in line.iter().enumerate() {
        if is_blank(*byte) {
            return index;
        }
    }
    line.len()
}

// Whether the byte separates words.
#[inline(always)]
fn is_blank(byte: u8) -> bool
    ensures { result ≡ is_blank byte }
{
    byte == b' ' || byte == b'\t'
}

/// Whether some byte may not stand in a line.
pub(crate) fn has_forbidden(line: &[u8]) -> bool
    ensures { result ≡ list_any is_forbidden line.now }
{
    for byte in line {
        if is_forbidden(*byte) {
            return true;
        }
    }
    false
}

// Whether the byte may not stand in a line, outside comments.
#[inline(always)]
fn is_forbidden(byte: u8) -> bool
    ensures { result ≡ is_forbidden byte }
{
    !(byte == b'\t' || (0x20 <= byte && byte <= 0x7e))
}

/// Whether some byte may not stand in a name, though it may in a line.
pub(crate) fn has_sign(name: &[u8]) -> bool
    ensures { result ≡ list_any is_sign name.now }
{
    for byte in name {
        if is_sign(*byte) {
            return true;
        }
    }
    false
}

// Whether the byte is one of `( ) , = \`.
#[inline(always)]
fn is_sign(byte: u8) -> bool
    ensures { result ≡ is_sign byte }
{
    byte == b'(' || byte == b')' || byte == b',' || byte == b'=' || byte == b'\\'
}
