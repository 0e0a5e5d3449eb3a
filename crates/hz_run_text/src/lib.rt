//! Run texts, which are a start, an input and runs of a network: read from a text and printed.
//!
//! | Module | What lives in it |
//! |---|---|
//! | `read` | [`read_run`]: the order of work |
//! | `statement` | the statements, looked up in a network |
//! | `keyword` | the keywords with which they begin |
//! | `short` | the commonest line, read without its tokens |
//! | `variables` | the variables of a step |
//! | `number` | decimal numbers |
//! | `format` | the formats, 1 and 2 |
//! | `size` | the size of a network, as format 2 has it |
//! | `order` | the order of the statements |
//! | `rules` | the passes over the statements, one for each fault |
//! | `build` | the run text of statements without a fault |
//! | `builder` | the runs, built statement by statement |
//! | `told` | the runs, each by the places of its steps |
//! | `text` | [`RunText`]: a start, an input, and runs |
//! | `print` | [`print_run`], and the functions that write its lines |
//! | `laws` | the law that printed run texts are read as what was printed |
#![tactic(auto)]

mod build;
mod builder;
mod format;
mod keyword;
mod laws;
mod number;
mod order;
mod print;
mod read;
mod rules;
mod short;
mod size;
mod statement;
mod text;
mod told;
mod variables;

pub use laws::printed_runs_are_read;
pub use number::{is_decimal, number_within};
pub use print::{print_run, write_end, write_format, write_run, write_run_text, write_states};
pub use read::read_run;
pub use text::RunText;
