// The statement of a line.

ghost use Rattle.std.specs.Prelude.{◌≡◌, ◌<◌, ◌≤◌, ◌^◌, ◌+◌, ◌++◌, ◌⊎◌, ◌||◌, ℕ, List, [], ◌∷◌, None, Some, if◌then◌else◌, IfSome, length, option_map};
ghost use Rattle.std.specs.Borrow.{Bor};
ghost use Rattle.hz_line.specs.Token.{tokens_of, has_no_token};
ghost use Rattle.hz_bench.specs.Head.{AreKept, HasWords, IsStatementOfLine, IsPunctuatedFirst, IsHeadOf, head_tokens, names_by, name_list_with, no_name_list};
ghost use Rattle.hz_bench.specs.Statement.{is_long};

use crate::entry::{Entry, Line, OutputLine};
use crate::forms::{Form, form_named};
use hz_core::MAX_NAME;
use hz_line::{Punctuation, first_punctuation, first_word, is_blank_line, is_keyword};

/// The statement of a line, if it has one. It takes no memory. The sources of a gate are kept as far
/// as `words` has room.
pub(crate) fn statement_of<'a>(
    line: u32,
    text: &'a [u8],
    words: &mut Vec<&'a [u8]>,
) -> Option<Line<'a>>
    requires { length text.now < 2 ^ 32 }
    ensures meant { IsStatementOfLine line text.now result }
    ensures kept { IfSome result (λ line. HasWords line words.new.items) }
{
    let head = head_of(text)?;
    match (head.punctuation, head.next) {
        (Punctuation::Open, Punctuation::Close) => port(line, text, &head),
        (Punctuation::Equals, Punctuation::Open) => gate(line, text, &head, words),
        _ => None,
    }
}

// Every statement begins with two words, each with punctuation after it.
#[derive(Clone, Copy)]
struct Head<'a> {
    first: &'a [u8],
    punctuation: Punctuation,
    second: &'a [u8],
    next: Punctuation,
    rest: &'a [u8],
}

/// A word with punctuation after it, and the line after both.
#[derive(Clone, Copy)]
pub(crate) struct PunctuatedWord<'a> {
    pub(crate) word: &'a [u8],
    pub(crate) punctuation: Punctuation,
    pub(crate) rest: &'a [u8],
}

// What is noted of a list of names: how many there are, and whether some name is too long.
#[derive(Clone, Copy)]
struct NameList {
    count: usize,
    long: bool,
}

// The head of a line, if it begins as a statement does.
fn head_of<'a>(line: &'a [u8]) -> Option<Head<'a>>
    ensures { IsHeadOf line.now result }
{
    let first = punctuated_word(line)?;
    let second = punctuated_word(first.rest)?;
    Some(Head {
        first: first.word,
        punctuation: first.punctuation,
        second: second.word,
        next: second.punctuation,
        rest: second.rest,
    })
}

/// The word and the punctuation that a line begins with. A gate's sources are read by it one after
/// the other: a comma follows each but the last, which a parenthesis follows.
#[inline(always)]
pub(crate) fn punctuated_word<'a>(line: &'a [u8]) -> Option<PunctuatedWord<'a>>
    ensures { IsPunctuatedFirst line.now result }
{
    let (word, after) = first_word(line)?;
    let (punctuation, rest) = first_punctuation(after)?;
    Some(PunctuatedWord {
        word,
        punctuation,
        rest,
    })
}

// The input or output `WORD ( NAME )`.
#[tactic(auto, unfolding(crate::specs::Statement::port_statement))]
fn port<'a>(line: u32, text: &'a [u8], head: &Head<'a>) -> Option<Line<'a>>
    requires tokens { tokens_of text.now ≡ head_tokens head.now }
    requires opened { head.now.punctuation ≡ Punctuation.Open }
    requires closed { head.now.next ≡ Punctuation.Close }
    ensures meant { IsStatementOfLine line text.now result }
    ensures bare { (words : List (Bor (List ℕ))) → IfSome result (λ line. HasWords line words) }
{
    if !is_blank_line(head.rest) {
        return None;
    }
    if is_keyword(head.first, b"INPUT") {
        Some(Line::Node(Entry {
            line,
            form: Form::Input,
            long: is_long(head.second),
            name: head.second,
            sources: &[],
            pins: 0,
        }))
    } else if is_keyword(head.first, b"OUTPUT") {
        Some(Line::Output(OutputLine {
            line,
            name: head.second,
        }))
    } else {
        None
    }
}

// The flip-flop or gate `NAME = KIND ( NAME , .. NAME )`.
fn gate<'a>(
    line: u32,
    text: &'a [u8],
    head: &Head<'a>,
    words: &mut Vec<&'a [u8]>,
) -> Option<Line<'a>>
    requires tokens { tokens_of text.now ≡ head_tokens head.now }
    requires equals { head.now.punctuation ≡ Punctuation.Equals }
    requires opened { head.now.next ≡ Punctuation.Open }
    requires few { length head.now.rest.now < 2 ^ 32 }
    ensures meant { IsStatementOfLine line text.now result }
    ensures kept { IfSome result (λ line. HasWords line words.new.items) }
{
    let names = names(head.rest, words)?;
    Some(Line::Node(Entry {
        line,
        form: form_named(head.second),
        long: names.has_long_after(head.first),
        name: head.first,
        sources: head.rest,
        pins: names.count,
    }))
}

// What is noted of the one or more names, separated by commas and closed by a parenthesis, that a
// line has. They are kept as far as there is room.
fn names<'a>(line: &'a [u8], words: &mut Vec<&'a [u8]>) -> Option<NameList>
    ensures noted { result ≡ option_map (name_list_with no_name_list) (names_by
        (tokens_of line.now)) }
    ensures few { IfSome result (λ names. names.count ≤ length line.now) }
    ensures kept { IfSome result (λ names. AreKept words.new.items names.count line.now) }
{
    words.clear();
    let mut names = NameList {
        count: 0,
        long: false,
    };
    let mut left = line;
    loop {
        let Some(name) = punctuated_word(left) else {
            return None;
        };
        keep(words, name.word);
        names = names.add(name.word);
        match name.punctuation {
            Punctuation::Comma => left = name.rest,
            Punctuation::Close => return names.at_end(name.rest),
            Punctuation::Open | Punctuation::Equals => return None,
        }
    }
}

// Keeps a word after the others, if there is room.
fn keep<'a>(words: &mut Vec<&'a [u8]>, word: &'a [u8])
    ensures { (words.new.items ≡ words.old.items ++ word.entry ∷ [])
        ⊎ (words.new.items ≡ words.old.items) }
{
    if words.len() >= words.capacity() {
        return;
    }
    words.push_reserved(word);
}

impl NameList {
    // The same with one name more.
    fn add(self, name: &[u8]) -> NameList
        requires { self.count + 1 < 2 ^ 63 }
        ensures { result ≡ name_list_with self (name.now ∷ []) }
    {
        NameList {
            count: self.count + 1,
            long: self.long || is_long(name),
        }
    }

    // Whether the name that stands before these, or one of them, is too long.
    fn has_long_after(self, name: &[u8]) -> bool
        ensures { result ≡ is_long name.now || self.long }
    {
        is_long(name) || self.long
    }

    // The same, if nothing follows the names.
    fn at_end(self, rest: &[u8]) -> Option<NameList>
        ensures { result ≡ if has_no_token (tokens_of rest.now) then Some self else None }
    {
        if is_blank_line(rest) {
            Some(self)
        } else {
            None
        }
    }
}

/// Whether a name has more than [`MAX_NAME`] bytes.
pub(crate) fn is_long(name: &[u8]) -> bool
    ensures { result ≡ is_long name.now }
{
    name.len() > MAX_NAME
}
