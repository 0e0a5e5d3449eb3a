// Tokens of a line.

ghost use Rattle.std.specs.Prelude.{◌≡◌, ◌≤◌, false, length, IfErr, MatchResult, map, Some};
ghost use Rattle.std.specs.List.{prefix_len};
ghost use Rattle.hz_line.specs.Byte.{is_word_byte};
ghost use Rattle.hz_line.specs.Token.{token_of, tokens_of, begins_in_blank, has_no_token, BeginsWith, BeginsWithPunctuation, BeginsWithWord, IsPunctuationFirst, IsNext, IsWordFirst, PastBlanks};

use crate::bytes::{Class, Punctuation, class_of, is_word_byte};

/// A token, which borrows the text.
#[derive(Clone, Copy, Debug)]
pub enum Token<'a> {
    /// A longest run of word bytes, never empty.
    Word(&'a [u8]),
    Punct(Punctuation),
}

/// What comes first in a line.
#[derive(Clone, Copy)]
pub enum Next<'a> {
    /// The line has no token left.
    End,
    /// A forbidden byte stands before any token.
    Forbidden,
    /// A token, and the line after it.
    Token(Token<'a>, &'a [u8]),
}

/// The first token of a line, and what comes after it. Nothing that stands behind the token changes the answer. It
/// takes time linear in what it reads, and no memory.
#[inline]
pub fn next_token<'a>(line: &'a [u8]) -> Next<'a>
    ensures first { BeginsWith line.now result }
    ensures tokens { IsNext line.now result }
{
    let rest = trim_start(line);
    let [first, others @ ..] = rest else {
        return Next::End;
    };
    match class_of(*first) {
        Class::Blank => unreachable!(),
        Class::Hash => Next::End,
        Class::Punct(punctuation) => Next::Token(Token::Punct(punctuation), others),
        Class::WordByte => {
            let (word, after) = rest.split_at(word_len(rest));
            Next::Token(Token::Word(word), after)
        }
        Class::Forbidden => Next::Forbidden,
    }
}

/// The word that a line begins with, and what comes after it; none if something else comes first. It returns what
/// [`next_token`] does, and is faster if only a word is wanted.
#[inline]
pub fn first_word<'a>(line: &'a [u8]) -> Option<(&'a [u8], &'a [u8])>
    ensures first { BeginsWithWord line.now result }
    ensures tokens { IsWordFirst line.now result }
{
    let rest = trim_start(line);
    let len = word_len(rest);
    if len == 0 {
        None
    } else {
        Some(rest.split_at(len))
    }
}

/// The punctuation that a line begins with, and what comes after it; none if something else comes first.
#[inline]
pub fn first_punctuation<'a>(line: &'a [u8]) -> Option<(Punctuation, &'a [u8])>
    ensures first { BeginsWithPunctuation line.now result }
    ensures tokens { IsPunctuationFirst line.now result }
{
    let [first, rest @ ..] = trim_start(line) else {
        return None;
    };
    match class_of(*first) {
        Class::Punct(punctuation) => Some((punctuation, rest)),
        _ => None,
    }
}

/// Whether a line has no tokens: it is empty, or has blanks and a comment alone.
#[inline]
pub fn is_blank_line(line: &[u8]) -> bool
    ensures { result ≡ has_no_token (tokens_of line.now) }
{
    let [first, ..] = trim_start(line) else {
        return true;
    };
    match class_of(*first) {
        Class::Hash => true,
        _ => false,
    }
}

// A line without the blanks at its front.
#[inline]
fn trim_start<'a>(line: &'a [u8]) -> &'a [u8]
    ensures front { PastBlanks (λ after. after ≡ result.now) line.now }
    ensures all { begins_in_blank result.now ≡ false }
    ensures same { tokens_of line.now ≡ tokens_of result.now }
    ensures within { length result.now ≤ length line.now }
{
    let mut rest = line;
    while let [first, others @ ..] = rest {
        match class_of(*first) {
            Class::Blank => rest = others,
            _ => return rest,
        }
    }
    rest
}

// How many word bytes a line begins with.
#[inline]
fn word_len(line: &[u8]) -> usize
    ensures value { result ≡ prefix_len is_word_byte line.now }
    ensures within { result ≤ length line.now }
{
    for (index, byte) in line.iter().enumerate() {
        if !is_word_byte(*byte) {
            return index;
        }
    }
    line.len()
}
