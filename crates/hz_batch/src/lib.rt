//! The jobs on patterns of a circuit, 512 at a time: the line of each pattern, and how many there are of each kind.
//!
//! A pattern begins at the start that its first bits and the held gates give ([`batch`]), or at the
//! start of which nothing else is known ([`reset`]). Planes that list the first bits alone hold
//! what these bring about from there.
//!
//! | Module | What lives in it |
//! |---|---|
//! | `batching` | [`Batches`]: the job `batch` |
//! | `resetting` | [`Resets`]: the job `reset` |
//! | `writing` | [`batch`] and [`reset`]: block after block, and the last line |
//! | `job` | which of both is made |
//! | `blocks` | a block: it is loaded, all passes are made, and the line of each lane is written |
//! | `lanes` | the line of a lane |
//! | `outputs` | the line of a number, in which each output has two values |
//! | `letter` | the letter of a value |
//! | `digits` | the digits of a number that is counted up |
//! | `columns` | the first and the second values of the outputs, as they are kept for all lanes |
//! | `keys` | both values in a lane as one number, by which their letters are looked up |
//! | `held` | the gates that are held at the start |
//! | `counts` | what is counted |
//! | `fault` | [`BatchFault`]: why the text was not written |
#![tactic(auto, using(hz_write::proofs::Writers::writes_then, hz_write::proofs::Writers::writes_nothing))]

mod batching;
mod blocks;
mod columns;
mod counts;
mod digits;
mod fault;
mod held;
mod job;
mod keys;
mod lanes;
mod letter;
mod outputs;
mod resetting;
mod writing;

pub use batching::Batches;
pub use fault::BatchFault;
pub use resetting::Resets;
pub use writing::{batch, reset};
