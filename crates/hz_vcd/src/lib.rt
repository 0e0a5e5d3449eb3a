//! Runs as waveforms: a run is written as a value change dump of IEEE 1364, which waveform viewers read.
//!
//! | Module | What lives in it |
//! |---|---|
//! | `writing` | [`write`], [`write_within`]: give the text of a dump to a writer |
//! | `reading` | [`read`]: what a dump means, or the first word that no dump has there |
//! | `wave` | [`Wave`]: what a dump means |
//! | `fault` | [`VcdFault`]: why a text is no dump |
//! | `head` | the head of a dump |
//! | `words` | the words of a text |
//! | `code` | the codes by which a dump names variables |
#![tactic(auto, using(hz_write::proofs::Writers::writes_then, hz_write::proofs::Writers::writes_nothing))]

ghost use Rattle.std.specs.Prelude.{ℕ, Bool, List};
ghost use Rattle.hz_core.specs.Netlist.{Netlist};
ghost use Rattle.hz_vcd.specs.Dump.{IsDump};
ghost use Rattle.hz_vcd.specs.FirstWrong.{HasFormFault};

mod code;
mod fault;
mod head;
mod reading;
mod wave;
mod words;
mod writing;

pub use fault::VcdFault;
pub use reading::read;
pub use wave::Wave;
pub use writing::{write, write_within};

/// No word of a dump is wrong, and it doesn't end too early. So [`read`] gives the meaning of what [`write`] wrote.
pub fn dumps_have_no_fault()
    ensures { (netlist : Netlist) (words : List (List ℕ)) (state : List Bool)
        (steps : List (List ℕ)) (number : ℕ)
        → IsDump netlist words state steps → ¬ HasFormFault netlist words number }
{}
