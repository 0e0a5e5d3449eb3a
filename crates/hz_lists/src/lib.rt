//! The base of all crates: lists of numbers, and what is counted and found in them.
//!
//! What is told without a word on circuits, texts or files may stand here, once two crates need it: a definition and its theory,
//! or a small function. What names a variable, a gate, a run or a line stands above.
//!
//! | Module | What lives in it |
//! |---|---|
//! | `parts` | [`part_at`]: the parts of a list that is cut at ends |
//! | `least` | [`lesser`]: the lesser of two numbers that may be there |
//! | `steps` | [`Steps`]: a counter of steps that only contracts see |
//! | `number_list` | [`NumberList`]: numbers in the order in which they were put in, each once |
//! | `number_set` | [`NumberSet`]: an ordered set of numbers, whose least and greatest member are found at once |
//! | `bits` | bits in words of 64 |
#![tactic(auto)]

mod bits;
mod least;
mod number_list;
mod number_set;
mod parts;
mod steps;

pub use least::lesser;
pub use number_list::NumberList;
pub use number_set::NumberSet;
pub use parts::{part, part_at};
pub use steps::Steps;
