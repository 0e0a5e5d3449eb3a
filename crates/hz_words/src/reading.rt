//! The job of the words.
ghost use Rattle.std.specs.Prelude.{map, IfOk};
ghost use Rattle.std.specs.String.{string_bytes};
ghost use Rattle.hz_words.specs.Job.{HasNumbersInRange};
ghost use Rattle.hz_words.specs.Reading.{IsJobOfWords};

use crate::command::parse;
use crate::fault::WordsFault;
use crate::job::{Job, job_with};
use std::alloc::Global;

/// The job that the words after the program's name ask for. Words that ask for none are refused, and so is a call for
/// help.
#[tactic(auto, unfolding(crate::specs::Job::job_of))]
pub fn read(alloc: Global, words: &[String]) -> Result<Job<'_>, WordsFault>
    ensures job { IsJobOfWords (map string_bytes words.now) result }
    ensures range { IfOk result HasNumbersInRange }
{
    let arguments = parse(alloc, words)?;
    job_with(&arguments).ok_or(WordsFault::Refused)
}
