// Joined lines and their tokens.

ghost use Rattle.std.specs.Prelude.{◌≡◌, ◌+◌, ◌≤◌, ◌++◌, IfOk, OnOk, length};
ghost use Rattle.hz_line.specs.Line.{most_text_bytes, rest_length};
ghost use Rattle.hz_blif.specs.Text.{without_comment, words_of_line};
ghost use Rattle.hz_blif.specs.Reading.{IsJoinedLine, IsPieceOf, bytes_of};

use crate::words::{first_word, has_forbidden};
use hz_core::Memory;
use hz_line::split_line;
use memchr::memchr;

/// What was read of a joined line, besides its tokens.
#[derive(Clone, Copy)]
pub(crate) struct JoinedLine<'t> {
    /// How many lines of the text it is.
    pub(crate) lines: u32,
    /// Whether a byte may not stand in it.
    pub(crate) is_forbidden: bool,
    /// What the text has after it, if it has more lines.
    pub(crate) rest: Option<&'t [u8]>,
}

/// Takes one joined line off a text: as many lines as end in `\`, and one more. Its tokens come in
/// place of those that `tokens` had. The line is never made: its tokens are those of its lines, one
/// after the other.
pub(crate) fn read_line<'t>(
    text: &'t [u8],
    tokens: &mut Vec<&'t [u8]>,
) -> Result<JoinedLine<'t>, Memory>
    requires { length text.now ≤ most_text_bytes }
    ensures joined { IfOk result (λ joined. IsJoinedLine text.now tokens.new.items joined) }
    ensures counted { IfOk result (λ joined. joined.lines + rest_length joined.rest ≤ length
        text.now + 1) }
{
    tokens.clear();
    let mut lines = 0;
    let mut is_forbidden = false;
    let mut rest = Some(text);
    while let Some(left) = rest {
        let cut = split_line(left);
        let piece = piece_of(cut.line);
        match push_words(piece.bytes, tokens) {
            Ok(()) => {}
            Err(Memory) => return Err(Memory),
        }
        lines += 1;
        is_forbidden = is_forbidden | has_forbidden(piece.bytes);
        rest = cut.rest;
        if !piece.goes_on {
            return Ok(JoinedLine {
                lines,
                is_forbidden,
                rest,
            });
        }
    }
    Ok(JoinedLine {
        lines,
        is_forbidden,
        rest: None,
    })
}

// A line of the text without its comment, and without the `\` by which it goes on in the next one.
#[derive(Clone, Copy)]
struct Piece<'t> {
    bytes: &'t [u8],
    goes_on: bool,
}

// What a line of the text brings to its joined line.
fn piece_of<'t>(line: &'t [u8]) -> Piece<'t>
    ensures { IsPieceOf line.now result }
{
    let bytes = without_comment(line);
    let Some((last, front)) = bytes.split_last() else {
        return Piece {
            bytes,
            goes_on: false,
        };
    };
    if *last == b'\\' {
        Piece {
            bytes: front,
            goes_on: true,
        }
    } else {
        Piece {
            bytes,
            goes_on: false,
        }
    }
}

// A line without its comment.
fn without_comment<'t>(line: &'t [u8]) -> &'t [u8]
    ensures { result.now ≡ without_comment line.now }
{
    match memchr(b'#', line) {
        Some(start) => &line[..start],
        None => line,
    }
}

// Adds the words of a line to the tokens.
fn push_words<'t>(line: &'t [u8], tokens: &mut Vec<&'t [u8]>) -> Result<(), Memory>
    ensures { OnOk result (bytes_of tokens.new.items ≡ bytes_of tokens.old.items
        ++ words_of_line line.now) }
{
    let mut left = line;
    while let Some((word, rest)) = first_word(left) {
        let Ok(()) = tokens.push(word) else {
            return Err(Memory);
        };
        left = rest;
    }
    Ok(())
}
