//! The top call.
ghost use Rattle.std.specs.Prelude.{◌≡◌, [], map, Some};
ghost use Rattle.std.specs.String.{string_bytes};
ghost use Rattle.hz_words.specs.Job.{job_of, job_model, HasNumbersInRange};
ghost use Rattle.hz_refusal.specs.Ends.{Ends};
ghost use Rattle.hz_top.specs.LeftFiles.{LeavesFiles};
ghost use Rattle.hz_top.specs.Outcome.{observation_of, IsJobOutcome, MayLoad};
ghost use Rattle.hz_top.specs.Reached.{IsReached};
ghost use Rattle.hz_top.specs.Runs.{RunsAs};

use crate::order::{FileWork, work_on_files};
use crate::reached::Answer;
use hz_changes::demo;
use hz_formats::texts_are_circuits;
use hz_outside::{Files, Sink};
use hz_refusal::{Status, put_words, status_after, status_flushed};
use hz_words::{Job, WordsFault};
use std::alloc::Global;

/// Does the job that the words ask for, and returns how it ended.
///
/// The words are those after the program's name. The files are loaded by their names, the first one at the first place
/// and the second at the second, each at most once. The text goes into the sink, line by line; a refusal is one line.
pub fn run<F: Files, K: Sink>(alloc: Global, words: &[String], files: &mut F, out: &mut K) -> Status
    requires loads { MayLoad (F.granted files.old) (job_of (map string_bytes words.now)) }
    requires none_waits { (K.output out.old).waiting ≡ [] }
    ensures { RunsAs K.output K.faults
        (observation_of F.held F.faults F.longs files.old files.new)
        (job_of (map string_bytes words.now))
        out.old out.new result }
{
    answer(alloc, words, files, out).status
}

/// The same, and returns how far it came, too: `run` is its status.
pub fn answer<'w, F: Files, K: Sink>(
    alloc: Global,
    words: &'w [String],
    files: &mut F,
    out: &mut K,
) -> Answer<'w>
    requires loads { MayLoad (F.granted files.old) (job_of (map string_bytes words.now)) }
    requires none_waits { (K.output out.old).waiting ≡ [] }
    ensures runs { RunsAs K.output K.faults
        (observation_of F.held F.faults F.longs files.old files.new)
        (job_of (map string_bytes words.now))
        out.old out.new result.status }
    ensures reached { IsReached (observation_of F.held F.faults F.longs files.old files.new)
        (job_of (map string_bytes words.now)) result.status result.reached }
{
    texts_are_circuits();
    let worked = work_by_words(alloc, words, files, out);
    Answer {
        status: status_flushed(out.flush(), worked.status),
        reached: worked.reached,
    }
}

// Reads the words, and does the job that they ask for.
fn work_by_words<'w, F: Files, K: Sink>(
    alloc: Global,
    words: &'w [String],
    files: &mut F,
    out: &mut K,
) -> Answer<'w>
    requires { MayLoad (F.granted files.old) (job_of (map string_bytes words.now)) }
    ensures ends { Ends K.output K.faults
        (IsJobOutcome (observation_of F.held F.faults F.longs files.old files.new)
        (job_of (map string_bytes words.now)))
        out.old out.new result.status }
    ensures files { LeavesFiles (observation_of F.held F.faults F.longs files.old files.new)
        (job_of (map string_bytes words.now)) }
    ensures reached { IsReached (observation_of F.held F.faults F.longs files.old files.new)
        (job_of (map string_bytes words.now)) result.status result.reached }
{
    match hz_words::read(alloc, words) {
        Ok(job) => work(alloc, job, files, out),
        Err(WordsFault::Refused) => Answer {
            status: status_after(put_words(out), Status::Words),
            reached: None,
        },
        Err(WordsFault::Memory) => Answer {
            status: Status::Memory,
            reached: None,
        },
    }
}

// Does a job.
fn work<'w, F: Files, K: Sink>(
    alloc: Global,
    job: Job<'w>,
    files: &mut F,
    out: &mut K,
) -> Answer<'w>
    requires range { HasNumbersInRange job }
    requires loads { MayLoad (F.granted files.old) (Some (job_model job)) }
    ensures ends { Ends K.output K.faults
        (IsJobOutcome (observation_of F.held F.faults F.longs files.old files.new)
        (Some (job_model job.entry)))
        out.old out.new result.status }
    ensures files { LeavesFiles (observation_of F.held F.faults F.longs files.old files.new)
        (Some (job_model job.entry)) }
    ensures reached { IsReached (observation_of F.held F.faults F.longs files.old files.new)
        (Some (job_model job.entry)) result.status result.reached }
{
    match job {
        Job::OnFiles {
            task,
            options,
            first,
            second,
        } => work_on_files(alloc, FileWork { task, options }, first, second, files, out),
        Job::Demo { number, options } => Answer {
            status: demo(alloc, number, options.cap, out),
            reached: None,
        },
    }
}
