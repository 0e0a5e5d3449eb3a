// The statements of a text, as the passes over them read them.

ghost use Rattle.std.specs.Prelude.{◌≡◌, ◌<◌, ◌^◌, length, true};
ghost use Rattle.hz_line.specs.Token.{IsWordToken, tokens_of};
ghost use Rattle.hz_bench.specs.Form.{statement_with};
ghost use Rattle.hz_bench.specs.Statement.{sources_of, has_long_name, words_in, are_punctuated};

use crate::forms::Form;

/// An input, a flip-flop or a gate, which borrows from its line. The sources are read again from
/// the line when they are needed, so that a statement takes the same room however many pins its
/// gate has.
#[derive(Clone, Copy)]
pub struct Entry<'a> {
    /// The number of the line, counted from 1.
    pub line: u32,
    pub form: Form,
    /// Whether some name of the statement is too long.
    pub long: bool,
    /// The name that the statement defines.
    pub name: &'a [u8],
    /// The line from the first source on; empty of an input.
    pub sources: &'a [u8],
    /// How many sources there are.
    pub pins: usize,
    ghost worded: { IsWordToken name.now },
    ghost sourced: { words_in sources.now ≡ sources_of (statement_with name.now form sources.now) },
    ghost listed: { are_punctuated (tokens_of sources.now) ≡ true },
    ghost counted: { pins ≡ length (sources_of (statement_with name.now form sources.now)) },
    ghost small: { pins < 2 ^ 32 },
    ghost measured: { long ≡ has_long_name (statement_with name.now form sources.now) },
}

/// A line `OUTPUT(name)`, which borrows its name.
#[derive(Clone, Copy)]
pub struct OutputLine<'a> {
    /// The number of the line, counted from 1.
    pub line: u32,
    pub name: &'a [u8],
}

/// A line that is a statement.
#[derive(Clone, Copy)]
pub enum Line<'a> {
    /// An input, a flip-flop or a gate.
    Node(Entry<'a>),
    Output(OutputLine<'a>),
}
