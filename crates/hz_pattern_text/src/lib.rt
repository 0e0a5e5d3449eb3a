//! Patterns, which are pairs of inputs of a circuit, and gates that are held: read from a text and printed.
//!
//! | Module | What lives in it |
//! |---|---|
//! | `value` | [`Patterns`]: what is held, and the bits of each pattern |
//! | `read` | [`read_patterns`]: the order of work |
//! | `reader` | [`PatternReader`]: a text that comes part by part |
//! | `printed` | the first lines of a text, where they are as they are printed, read block by block |
//! | `statement` | the statements, looked up in a circuit |
//! | `word` | words of bits |
//! | `rules` | the passes over the statements, one for each fault |
//! | `build` | the patterns of statements without a fault |
//! | `print` | [`print_patterns`]: the text of patterns |
#![tactic(auto)]

mod build;
mod print;
mod printed;
mod read;
mod reader;
mod rules;
mod statement;
mod value;
mod word;

pub use print::print_patterns;
pub use read::read_patterns;
pub use reader::PatternReader;
pub use value::{MAX_PATTERNS, Patterns};
