//! The tests of the analysis of a change. What they test stands in tables of texts: what is read and found is
//! compared as one text. What a whole job prints stands in `tests/run`.
//!
//! | Module | What is tested in it |
//! |---|---|
//! | `edges` | how often nodes change, from above and from below |
//! | `gates` | the tables of the gates, and the canonical pattern |
//! | `kept` | runs that keep orders of wires and come to rest |
//! | `orders` | how often nodes change under orders of wires, and what they come to |
//! | `passes` | Algorithms A and B, and the runs that show what they find |
//! | `replays` | what a replayer knows of each state of a run |
//! | `words` | feedback cycles, and the words of the other variables |
#![tactic(auto)]

#[cfg(test)]
mod edges;
#[cfg(test)]
mod gates;
#[cfg(test)]
mod kept;
#[cfg(test)]
mod orders;
#[cfg(test)]
mod passes;
#[cfg(test)]
mod replays;
#[cfg(test)]
mod words;
