// What a line is, and whether it may stand where it stands.

ghost use Rattle.std.specs.Prelude.{◌≡◌, ◌++◌, ◌∷◌, [], ℕ, List, false};
ghost use Rattle.std.specs.List.{list_any};
ghost use Rattle.hz_line.specs.Statement.{Numbered};
ghost use Rattle.hz_blif.specs.Fault.{line_has_long_name, has_wrong_form, is_ill_formed, is_too_long, is_sign};
ghost use Rattle.hz_blif.specs.Line.{Line as LineOf, begins_with_dot, dotted, is_construct, is_end, is_statement, line_of_words, names_in, takes_rows_after};
ghost use Rattle.hz_blif.specs.Plain.{HasPlainWords};
ghost use Rattle.hz_blif.specs.Reading.{bytes_of, course_of, line_by};

use crate::words::has_sign;

/// The most bytes of a name: room is left for what the names of gates add to it.
const MAX_BLIF_NAME: usize = 240;

/// What a line is, by its first token, with the tokens that come after it; a row has all its
/// tokens.
#[derive(Clone, Copy)]
pub(crate) enum Line<'a, 't> {
    /// A line without tokens.
    Blank,
    Model(&'a [&'t [u8]]),
    Inputs(&'a [&'t [u8]]),
    Outputs(&'a [&'t [u8]]),
    /// `.names`: the names of a cover's pins, and last that of its output.
    Names(&'a [&'t [u8]]),
    Row(&'a [&'t [u8]]),
    End(&'a [&'t [u8]]),
    /// A line that begins with `.` and is no statement.
    Construct,
}

/// What a line with these tokens is.
pub(crate) fn line_of<'a, 't>(tokens: &'a [&'t [u8]]) -> Line<'a, 't>
    ensures { line_by result ≡ line_of_words (bytes_of tokens.now) }
{
    let Some((first, rest)) = tokens.split_first() else {
        return Line::Blank;
    };
    if begins_with_dot(*first) {
        dotted(*first, rest)
    } else {
        Line::Row(tokens)
    }
}

// Whether a token begins with '.'.
fn begins_with_dot(token: &[u8]) -> bool
    ensures { result ≡ begins_with_dot token.now }
{
    match token {
        [b'.', ..] => true,
        _ => false,
    }
}

// What a line is whose first token begins with '.'.
fn dotted<'a, 't>(word: &[u8], rest: &'a [&'t [u8]]) -> Line<'a, 't>
    ensures { line_by result ≡ dotted word.now (bytes_of rest.now) }
{
    if word == b".names".as_slice() {
        Line::Names(rest)
    } else if word == b".inputs".as_slice() {
        Line::Inputs(rest)
    } else if word == b".outputs".as_slice() {
        Line::Outputs(rest)
    } else if word == b".model".as_slice() {
        Line::Model(rest)
    } else if word == b".end".as_slice() {
        Line::End(rest)
    } else {
        Line::Construct
    }
}

impl<'a, 't> Line<'a, 't> {
    // The names of a line: the tokens of a row and those behind `.end` are none.
    fn names(&self) -> &'a [&'t [u8]]
        ensures { bytes_of result.now ≡ names_in (line_by self.now) }
    {
        match self {
            Line::Model(names) | Line::Inputs(names) | Line::Outputs(names) | Line::Names(names) =>
                { *names }
            Line::Blank | Line::Row(_) | Line::End(_) | Line::Construct => &[],
        }
    }

    // Whether a line is a statement.
    fn is_statement(&self) -> bool
        ensures { result ≡ is_statement (line_by self.now) }
    {
        match self {
            Line::Blank | Line::Construct => false,
            _ => true,
        }
    }

    // Whether a line is `.end`.
    fn is_end(&self) -> bool
        ensures { result ≡ is_end (line_by self.now) }
    {
        match self {
            Line::End(_) => true,
            _ => false,
        }
    }

    // Whether rows may follow a line, where they might follow the line before it.
    fn takes_rows_after(&self, before: bool) -> bool
        ensures { result ≡ takes_rows_after before (line_by self.now) }
    {
        match self {
            Line::Blank | Line::Row(_) => before,
            Line::Names(_) => true,
            _ => false,
        }
    }

    /// Whether a line is a construct that is no statement.
    pub(crate) fn is_construct(&self) -> bool
        ensures { result ≡ is_construct (line_by self.now) }
    {
        match self {
            Line::Construct => true,
            _ => false,
        }
    }

    /// Whether some name is too long.
    pub(crate) fn has_long_name(&self) -> bool
        ensures { result ≡ line_has_long_name (line_by self.now) }
    {
        has_long(self.names())
    }

    // Whether some name has a byte that may not stand in one.
    fn has_sign(&self) -> bool
        ensures sign { result ≡ list_any (list_any is_sign) (names_in (line_by self.now)) }
        ensures plain { result ≡ false → HasPlainWords self.now }
    {
        have_sign(self.names())
    }
}

// Whether some name is too long.
fn has_long(names: &[&[u8]]) -> bool
    ensures { result ≡ list_any is_too_long (bytes_of names.now) }
{
    for name in names {
        if name.len() > MAX_BLIF_NAME {
            return true;
        }
    }
    false
}

// Whether some name has a byte that may not stand in one.
fn have_sign(names: &[&[u8]]) -> bool
    ensures { result ≡ list_any (list_any is_sign) (bytes_of names.now) }
{
    for name in names {
        if has_sign(*name) {
            return true;
        }
    }
    false
}

/// What the lines so far say of the form of the next one.
#[derive(Clone, Copy)]
pub(crate) struct Course {
    /// Whether some line was a statement.
    has_statement: bool,
    /// Whether some line was `.end`.
    has_end: bool,
    /// Whether a row may come.
    takes_rows: bool,
}

impl Course {
    /// Of no lines.
    pub(crate) fn new() -> Course
        ensures { result ≡ course_of [] }
    {
        Course {
            has_statement: false,
            has_end: false,
            takes_rows: false,
        }
    }

    /// Whether the form of the next line is wrong.
    pub(crate) fn refuses(&self, line: &Line) -> bool
        ensures refuses { (before : List (Numbered LineOf)) → self.now ≡ course_of before
            → result ≡ has_wrong_form before (line_by line.now) }
        ensures plain { result ≡ false → HasPlainWords line.now }
    {
        self.is_ill_formed(line) || line.has_sign() || (line.is_statement() && self.has_end)
    }

    // Whether the next line is not as said, by itself and its place.
    fn is_ill_formed(&self, line: &Line) -> bool
        ensures { (before : List (Numbered LineOf)) → self.now ≡ course_of before
            → result ≡ is_ill_formed before (line_by line.now) }
    {
        match line {
            Line::Blank | Line::Inputs(_) | Line::Outputs(_) | Line::Construct => false,
            Line::Model(names) => names.len() > 1 || self.has_statement,
            Line::Names(names) => names.is_empty(),
            Line::Row(_) => !self.takes_rows,
            Line::End(rest) => !rest.is_empty(),
        }
    }

    /// The same with one line more.
    pub(crate) fn with(self, line: &Line) -> Course
        ensures { (before : List (Numbered LineOf)) (number : ℕ) → self ≡ course_of before
            → result ≡ course_of (before ++ record { line = number; statement = line_by line.now }
            ∷ []) }
    {
        Course {
            has_statement: self.has_statement || line.is_statement(),
            has_end: self.has_end || line.is_end(),
            takes_rows: line.takes_rows_after(self.takes_rows),
        }
    }
}
