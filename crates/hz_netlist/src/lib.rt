//! What the readers of netlists share: names with their numbers, and the building of a circuit.
//!
//! A reader gives each name a number at first sight, and notes the lines that define and use it
//! first: so the first name that is defined twice, and the first that is defined nowhere, need no
//! second pass over the text. What it reads is a draft, by these numbers, and the circuit of a draft
//! is built here.
//!
//! | Module | What lives in it |
//! |---|---|
//! | `names` | [`NameTable`]: names with their numbers, and the lines that define and use them first |
//! | `key` | the keys of that table |
//! | `draft` | [`Draft`]: what was read of a text; [`build_draft`]: its circuit |
//! | `build` | outputs, and the nodes of names |
//! | `growing` | [`push`]: lists that grow by one item at a time |
#![tactic(auto)]

mod build;
mod draft;
mod growing;
mod key;
mod names;

pub use draft::{Draft, Gate, Role, Source, build_draft};
pub use growing::push;
pub use names::{Definition, NameTable};
