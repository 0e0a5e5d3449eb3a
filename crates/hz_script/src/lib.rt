//! Scripts, which are a start and changes of the inputs of a circuit: read from a text and printed.
//!
//! | Module | What lives in it |
//! |---|---|
//! | `script` | [`Script`]: a start and changes |
//! | `read` | [`read_script`]: the order of work |
//! | `statement` | the statements, looked up in a circuit |
//! | `rules` | the passes over the statements, one for each fault |
//! | `build` | the script of statements without a fault |
//! | `print` | [`print_script`]: the text of a script |
#![tactic(auto)]

mod build;
mod print;
mod read;
mod rules;
mod script;
mod statement;

pub use print::print_script;
pub use read::read_script;
pub use script::{MAX_CHANGES, Script};
