// Keywords, in any letter case.

ghost use Rattle.std.specs.Prelude.{◌≡◌};
ghost use Rattle.hz_line.specs.Keyword.{is_keyword};

/// Whether the word is the keyword, in any letter case of ASCII.
#[inline]
pub fn is_keyword(word: &[u8], keyword: &[u8]) -> bool
    ensures { result ≡ is_keyword word.now keyword.now }
{
    word.eq_ignore_ascii_case(keyword)
}
