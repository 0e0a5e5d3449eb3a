//! Bits in words of 64.
ghost use Rattle.std.specs.Prelude.{◌≡◌, ◌≢◌, ◌<◌, ◌/◌, ◌↔◌, length, slice_index_or, IsTrue};
ghost use Rattle.hz_lists.specs.Bits.{IsTurned, IsLowestIn, IsHighestIn};

// Sets a bit.
pub(crate) fn set_bit(words: &mut [u64], place: u32)
    requires { place / 64 < length words.old }
    ensures { IsTurned words.old words.new place 1 }
{
    words[(place / 64) as usize] |= 1 << (place % 64);
}

// Clears a bit. Returns whether its word has no bit then.
pub(crate) fn clear_bit(words: &mut [u64], place: u32) -> bool
    requires { place / 64 < length words.old }
    ensures turned { IsTurned words.old words.new place 0 }
    ensures stays { slice_index_or words.old (place / 64) 0 ≡ 0 →
        slice_index_or words.new (place / 64) 0 ≡ 0 }
    ensures empty { IsTrue result ↔ (slice_index_or words.new (place / 64) 0 ≡ 0) }
{
    let word = (place / 64) as usize;
    words[word] &= !(1 << (place % 64));
    words[word] == 0
}

// The lowest bit that is set in a word.
pub(crate) fn lowest_in(words: &[u64], word: u32) -> u32
    requires inside { word < 4096 }
    requires some { slice_index_or words.now word 0 ≢ 0 }
    ensures { IsLowestIn words.now word result }
{
    64 * word + words[word as usize].trailing_zeros()
}

// The highest bit that is set in a word.
pub(crate) fn highest_in(words: &[u64], word: u32) -> u32
    requires inside { word < 4096 }
    requires some { slice_index_or words.now word 0 ≢ 0 }
    ensures { IsHighestIn words.now word result }
{
    64 * word + 63 - words[word as usize].leading_zeros()
}
