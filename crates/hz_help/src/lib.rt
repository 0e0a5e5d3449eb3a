//! What stands between the system and the top call, and no contract speaks of: the words, and what is said on standard error.
//!
//! | Module | What lives in it |
//! |---|---|
//! | `words` | [`read_words`]: the words of the command line |
//! | `help` | [`tell`]: what a person needs next after a refusal |
#![tactic(auto)]

mod help;
mod words;

pub use help::{tell, tell_wordless};
pub use words::read_words;
