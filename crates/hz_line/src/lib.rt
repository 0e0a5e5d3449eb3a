//! Lines of a text and tokens of a line.
//!
//! The texts of this project (netlists, scripts, patterns and runs) share one lexical form: lines end at a
//! line feed, `#` starts a comment, blanks separate tokens, and a token is a word or punctuation
//! `( ) , =`. [`split_line`] takes one line off a text, [`next_token`] gives the tokens of a line, one after the other, and
//! [`is_keyword`] compares a word with a keyword in any letter case. A reader that knows what has to come next asks
//! [`first_word`], [`first_punctuation`] or [`is_blank_line`], which is quicker. Lines and tokens borrow the text.
//!
//! A text each of whose lines is one statement has a [`Grammar`], and [`read_statements`] gives its numbered statements or
//! the first malformed line.
//!
//! | Module | What lives in it |
//! |---|---|
//! | `limit` | how long a text may be |
//! | `lines` | [`split_line`]: one line off a text |
//! | `bytes` | what a byte does in a line |
//! | `tokens` | the tokens of a line, one after the other |
//! | `keywords` | [`is_keyword`]: keywords, in any letter case |
//! | `statements` | [`read_statements`]: the statements of a text by its [`Grammar`] |
#![tactic(auto)]

mod bytes;
mod keywords;
mod limit;
mod lines;
mod statements;
mod tokens;

pub use bytes::Punctuation;
pub use keywords::is_keyword;
pub use limit::MAX_TEXT;
pub use lines::{Cut, split_line};
pub use statements::{Grammar, Numbered, StatementFault, StatementsFault, read_statements};
pub use tokens::{Next, Token, first_punctuation, first_word, is_blank_line, next_token};
