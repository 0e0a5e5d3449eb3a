//! The tests of what reads and writes texts, of files and of outputs, and of what answers patterns. What they test stands in tables of texts: what is read and found is
//! compared as one text. What a whole job prints stands in `tests/run`.
//!
//! | Module | What is tested in it |
//! |---|---|
//! | `netlists` | circuits that are read and printed, and generated ones |
//! | `texts` | scripts and patterns that are read and printed, and a run text that is made |
//! | `lines` | how many puts a line takes |
//! | `outputs` | standard output, gathered output, and files and sinks in memory |
//! | `dumps` | the first wrong words of value change dumps |
//! | `planes` | starts and both algorithms in lanes of bit planes |
//! | `resets` | what inputs bring about from an unknown start |
#![tactic(auto)]

#[cfg(test)]
mod dumps;
#[cfg(test)]
mod lines;
#[cfg(test)]
mod netlists;
#[cfg(test)]
mod outputs;
#[cfg(test)]
mod planes;
#[cfg(test)]
mod resets;
#[cfg(test)]
mod texts;
