// The class of a byte in a line.

ghost use Rattle.std.specs.Prelude.{◌≡◌};
ghost use Rattle.hz_line.specs.Byte.{class_by, class_of, is_word_byte};

/// Punctuation, each a token by itself.
#[derive(Clone, Copy, Debug, PartialEq, Eq)]
pub enum Punctuation {
    /// `(`
    Open,
    /// `)`
    Close,
    /// `,`
    Comma,
    /// `=`
    Equals,
}

/// What a byte does in a line, before the comment.
#[derive(Clone, Copy, Debug, PartialEq, Eq)]
pub(crate) enum Class {
    /// A space or a tab, which separates tokens.
    Blank,
    /// `#`, which starts the comment.
    Hash,
    /// Punctuation.
    Punct(Punctuation),
    /// Any other printing byte of ASCII, a part of a word.
    WordByte,
    /// Any other byte, as a control byte, a carriage return or a byte from 0x80 on.
    Forbidden,
}

/// The class of a byte.
#[inline(always)]
#[tactic(auto, unfolding(crate::specs::Byte::class_of))]
pub(crate) fn class_of(byte: u8) -> Class
    ensures { class_by result ≡ class_of byte }
{
    match byte {
        b' ' | b'\t' => Class::Blank,
        b'#' => Class::Hash,
        b'(' => Class::Punct(Punctuation::Open),
        b')' => Class::Punct(Punctuation::Close),
        b',' => Class::Punct(Punctuation::Comma),
        b'=' => Class::Punct(Punctuation::Equals),
        0x21..=0x7e => Class::WordByte,
        _ => Class::Forbidden,
    }
}

// Whether the byte is a part of a word. Every byte of every word is asked, so a table answers.
#[inline]
pub(crate) fn is_word_byte(byte: u8) -> bool
    ensures { result ≡ is_word_byte byte }
{
    WORD_BYTES[byte as usize]
}

// Which bytes are parts of words.
static WORD_BYTES: [bool; 256] = [
    false, false, false, false, false, false, false, false, false, false, false, false, false,
    false, false, false, false, false, false, false, false, false, false, false, false, false,
    false, false, false, false, false, false, false, true, true, false, true, true, true, true,
    false, false, true, true, false, true, true, true, true, true, true, true, true, true, true,
    true, true, true, true, true, true, false, true, true, true, true, true, true, true, true,
    true, true, true, true, true, true, true, true, true, true, true, true, true, true, true, true,
    true, true, true, true, true, true, true, true, true, true, true, true, true, true, true, true,
    true, true, true, true, true, true, true, true, true, true, true, true, true, true, true, true,
    true, true, true, true, true, true, true, true, true, false, false, false, false, false, false,
    false, false, false, false, false, false, false, false, false, false, false, false, false,
    false, false, false, false, false, false, false, false, false, false, false, false, false,
    false, false, false, false, false, false, false, false, false, false, false, false, false,
    false, false, false, false, false, false, false, false, false, false, false, false, false,
    false, false, false, false, false, false, false, false, false, false, false, false, false,
    false, false, false, false, false, false, false, false, false, false, false, false, false,
    false, false, false, false, false, false, false, false, false, false, false, false, false,
    false, false, false, false, false, false, false, false, false, false, false, false, false,
    false, false, false, false, false, false, false, false, false, false, false, false, false,
    false, false, false, false, false, false,
];
