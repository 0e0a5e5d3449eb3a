//! The words of a text, one after the other.
ghost use Rattle.std.specs.Prelude.{◌≡◌, ◌+◌, ◌<◌, ◌≤◌, ℕ, length, true, false, slice_index_or};
ghost use Rattle.hz_line.specs.Line.{most_text_bytes};
ghost use Rattle.hz_vcd.specs.Word.{is_white, is_dark, words_of};
ghost use Rattle.hz_vcd.specs.Reading.{IsFirstWord, ReadsNext};

use std::marker::Model;

// A space, a tab, a carriage return or a line feed.
fn is_white(byte: u8) -> bool
    ensures { result ≡ is_white byte }
{
    byte == b' ' || byte == b'\t' || byte == b'\r' || byte == b'\n'
}

// The text from its first word on.
fn trim_start<'t>(text: &'t [u8]) -> &'t [u8]
    ensures same { words_of text.now ≡ words_of result.now }
    ensures dark { 0 < length result.now → is_dark (slice_index_or result.now 0 0) ≡ true }
    ensures within { length result.now ≤ length text.now }
{
    let mut rest = text;
    while let [first, others @ ..] = rest {
        if !is_white(*first) {
            return rest;
        }
        rest = others;
    }
    rest
}

// How many bytes stand before the first white one.
fn word_len(text: &[u8]) -> usize
    ensures passes { (place : ℕ) → place < result →
        is_dark (slice_index_or text.now place 0) ≡ true }
    ensures stops { result < length text.now → is_dark (slice_index_or text.now result 0) ≡ false }
    ensures within { result ≤ length text.now }
{
    for (index, byte) in text.iter().enumerate() {
        if is_white(*byte) {
            return index;
        }
    }
    text.len()
}

/// The first word of a text and the text behind it, if it has a word.
pub(crate) fn first_word<'t>(text: &'t [u8]) -> Option<(&'t [u8], &'t [u8])>
    ensures { IsFirstWord text.now result }
{
    let rest = trim_start(text);
    let len = word_len(rest);
    if len == 0 {
        None
    } else {
        Some(rest.split_at(len))
    }
}

/// The words that are left of a text, and how many were read.
#[derive(Drop)]
pub(crate) struct Words<'t> {
    rest: &'t [u8],
    read: u32,
}

impl<'t> Model for Words<'t> {
    ghost use Rattle.std.specs.Prelude.{◌+◌, ◌≤◌, length};
    ghost use Rattle.hz_line.specs.Line.{most_text_bytes};
    ghost use Rattle.hz_vcd.specs.Word.{words_of};
    ghost use Rattle.hz_vcd.specs.Reading.{WordsLeft};

    ghost Value = { WordsLeft };

    ghost view = { λ left. record { words = words_of left.rest.now; read = left.read } };

    ghost invariant = { λ left. length left.rest.now + left.read ≤ most_text_bytes };
}

impl<'t> Words<'t> {
    /// All words of a text.
    pub(crate) fn new(text: &'t [u8]) -> Words<'t>
        requires { length text.now ≤ most_text_bytes }
        ensures { result ≡ record { words = words_of text.now; read = 0 } }
    {
        Words {
            rest: text,
            read: 0,
        }
    }

    /// The number of the next word, counted from 1.
    pub(crate) fn number(&self) -> u32
        ensures number { result ≡ self.now.read + 1 }
        ensures bound { self.now.read ≤ most_text_bytes }
    {
        self.read + 1
    }

    /// Reads the next word, if there is one.
    pub(crate) fn next(&mut self) -> Option<&'t [u8]>
        ensures { ReadsNext self.old self.new result }
    {
        let (word, rest) = first_word(self.rest)?;
        self.rest = rest;
        self.read += 1;
        Some(word)
    }
}
