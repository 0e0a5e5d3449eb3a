// The formats of run texts.

ghost use Rattle.std.specs.Prelude.{◌≡◌, Some, MatchResult};
ghost use Rattle.hz_line.specs.Reading.{by_tokens, IsUnread};
ghost use Rattle.hz_line.specs.Token.{tokens_of};
ghost use Rattle.hz_run_text.specs.RunStatement.{format_of};

use hz_line::{StatementFault, first_word, is_blank_line};

/// A format of run texts. The second one names the size of its network.
#[derive(Clone, Copy, Debug)]
pub(crate) enum Format {
    One,
    Two,
}

// The format whose number the tokens of a line are.
pub(crate) fn read_format(line: &[u8]) -> Result<Format, StatementFault>
    ensures { MatchResult result
        (λ format. by_tokens format_of (tokens_of line.now) ≡ Some format)
        (λ why. IsUnread (by_tokens format_of (tokens_of line.now)) why) }
{
    let Some((format, after)) = first_word(line) else {
        return Err(StatementFault::Form);
    };
    if !is_blank_line(after) {
        return Err(StatementFault::Form);
    }
    if format == b"1".as_slice() {
        Ok(Format::One)
    } else if format == b"2".as_slice() {
        Ok(Format::Two)
    } else {
        Err(StatementFault::Form)
    }
}
