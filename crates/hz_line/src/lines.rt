// Lines of a text.

ghost use Rattle.std.specs.Prelude.{◌≡◌, ◌+◌, ◌<◌, ◌≤◌, IfSome, ◌∷◌, length, position};
ghost use Rattle.std.specs.Str.Lines.{strip_carriage_return};
ghost use Rattle.hz_line.specs.Line.{is_line_feed, lines_of, lines_of_rest, rest_length};

use memchr::memchr;

/// A line, and what the text has after its line feed: nothing at the last line.
#[derive(Clone, Copy, Debug)]
pub struct Cut<'a> {
    pub line: &'a [u8],
    pub rest: Option<&'a [u8]>,
}

/// Cuts the first line off a text, in time linear in the line. A text that ends in a line feed has an
/// empty line after it.
#[inline]
pub fn split_line<'a>(text: &'a [u8]) -> Cut<'a>
    ensures lines { lines_of text.now ≡ result.line.now ∷ lines_of_rest result.rest }
    ensures within { length result.line.now + rest_length result.rest ≤ length text.now }
{
    match first_line_feed(text) {
        Some(end) => Cut {
            line: strip_carriage_return(&text[..end]),
            rest: Some(&text[end + 1..]),
        },
        None => Cut {
            line: strip_carriage_return(text),
            rest: None,
        },
    }
}

// The index of the first line feed.
fn first_line_feed(text: &[u8]) -> Option<usize>
    ensures value { result ≡ position is_line_feed text.now }
    ensures within { IfSome result (λ index. index < length text.now) }
{
    memchr(b'\n', text)
}

// The line without one carriage return at its end.
fn strip_carriage_return(line: &[u8]) -> &[u8]
    ensures value { result.now ≡ strip_carriage_return line.now }
    ensures within { length result.now ≤ length line.now }
{
    match line.last() {
        Some(b'\r') => &line[..line.len() - 1],
        _ => line,
    }
}
