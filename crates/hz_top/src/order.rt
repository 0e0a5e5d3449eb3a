//! The order of work on two files: the first file, its netlist, the second file, and then what the task does with its text.
ghost use Rattle.std.specs.Prelude.{◌≡◌, Some, IsSomeAnd};
ghost use Rattle.hz_outside.specs.declared.fault.Place.TheVariants.{First, Second};
ghost use Rattle.hz_options.specs.Numbers.{IsCap};
ghost use Rattle.hz_pattern_text.specs.PatternFault.{HasPatternFault};
ghost use Rattle.hz_run_text.specs.RunFault.{HasRunFault};
ghost use Rattle.hz_script.specs.ScriptFault.{HasScriptFault};
ghost use Rattle.hz_refusal.specs.Ends.{Ends};
ghost use Rattle.hz_refusal.specs.Second.{OfScript, OfRuns, OfPatterns, IsToldLine};
ghost use Rattle.hz_timing.specs.TimedFault.{HasTimedFault};
ghost use Rattle.hz_timing.specs.Timed.{OfTimed, IsToldTimedLine};
ghost use Rattle.hz_top.specs.LeftFiles.{LeavesFiles};
ghost use Rattle.hz_words.specs.Job.{OnFiles};
ghost use Rattle.hz_line.specs.Line.{most_text_bytes};
ghost use Rattle.hz_top.specs.Outcome.{observation_of, CountsStay, IsFilesOutcome, IsSecondFileOutcome};
ghost use Rattle.hz_top.specs.Reached.{IsReached, IsLineOnCircuit, tells_line};
ghost use Rattle.hz_top.specs.Tasks.{comes_of};

use crate::reached::{Answer, Reached};
use hz_batch::{Batches, Resets};
use hz_changes::{Analyses, Splits};
use hz_edge_reports::Edges;
use hz_explore::Explores;
use hz_formats::{read_netlist, refuse_netlist};
use hz_line::MAX_TEXT;
use hz_net::Net;
use hz_options::Options;
use hz_outside::{Files, Place, Sink};
use hz_pattern_text::PatternReader;
use hz_refusal::{
    Ending, OnPatterns, OnRuns, OnScript, Status, on_patterns, on_runs, on_script, refuse_load,
};
use hz_replay::{Converts, Dumps, Replays};
use hz_timing::{OnTimed, on_timed};
use hz_words::Task;
use std::alloc::Global;

/// What is to be done with two files: a task, by the options that stand beside it.
#[derive(Clone, Copy)]
pub(crate) struct FileWork {
    pub(crate) task: Task,
    pub(crate) options: Options,
}

/// Does work on two files.
pub(crate) fn work_on_files<'w, F: Files, K: Sink>(
    alloc: Global,
    work: FileWork,
    first: &'w str,
    second: &'w str,
    files: &mut F,
    out: &mut K,
) -> Answer<'w>
    requires cap { IsCap work.options.cap }
    requires first { F.granted files.old First first.now most_text_bytes }
    requires second { F.granted files.old Second second.now most_text_bytes }
    ensures ends { Ends K.output K.faults
        (IsFilesOutcome (observation_of F.held F.faults F.longs files.old files.new)
        (comes_of work.options work.task) first.entry.now second.entry.now)
        out.old out.new result.status }
    ensures files { LeavesFiles (observation_of F.held F.faults F.longs files.old files.new)
        (Some (OnFiles work.task work.options first.entry.now second.entry.now)) }
    ensures reached { IsReached (observation_of F.held F.faults F.longs files.old files.new)
        (Some (OnFiles work.task work.options first.entry.now second.entry.now))
        result.status result.reached }
{
    // The bytes of the first file are freed before the second is loaded.
    let circuit = {
        let text = match files.load(alloc, Place::First, first, MAX_TEXT) {
            Ok(text) => text,
            Err(fault) => return at_first(first, refuse_load(out, Place::First, fault), 0),
        };
        match read_netlist(alloc, first, text.as_slice()) {
            Ok(circuit) => circuit,
            Err(fault) => return at_first(first, refuse_netlist(out, fault), fault.line()),
        }
    };
    let Ok(net) = Net::build(alloc, circuit) else {
        return at_first(first, Status::Memory, 0);
    };
    let ending = work_on_second(alloc, &net, work, second, files, out);
    Answer {
        status: ending.status,
        reached: Some(Reached {
            place: Place::Second,
            name: second,
            line: ending.line,
        }),
    }
}

// The answer of a call that came to the first file, and no further.
fn at_first<'w>(name: &'w str, status: Status, line: u32) -> Answer<'w>
    ensures status { result.status ≡ status }
    ensures reached { IsSomeAnd result.reached (λ at.
        (at.place ≡ First) × (at.name.now ≡ name.entry.now) × (at.line ≡ line)) }
{
    Answer {
        status,
        reached: Some(Reached {
            place: Place::First,
            name,
            line,
        }),
    }
}

// Does work on a network and the text of the second file.
fn work_on_second<F: Files, K: Sink>(
    alloc: Global,
    net: &Net,
    work: FileWork,
    second: &str,
    files: &mut F,
    out: &mut K,
) -> Ending
    requires cap { IsCap work.options.cap }
    requires second { F.granted files.old Second second.now most_text_bytes }
    ensures ends { Ends K.output K.faults
        (IsSecondFileOutcome (observation_of F.held F.faults F.longs files.old files.new)
        (comes_of work.options work.task net.now) second.now)
        out.old out.new result.status }
    ensures stay { CountsStay (observation_of F.held F.faults F.longs files.old files.new) First }
    ensures line { IsLineOnCircuit (F.held files.old) (tells_line work.task net.now) second.now
        result.status result.line }
{
    let options = work.options;
    match work.task {
        Task::Analyse => work_on_script(alloc, &Analyses { options }, net, second, files, out),
        Task::Edges => work_on_timed(alloc, &Edges { options }, net, second, files, out),
        Task::Explore => work_on_timed(alloc, &Explores { options }, net, second, files, out),
        Task::Split => work_on_script(alloc, &Splits { options }, net, second, files, out),
        Task::Replay => work_on_runs(alloc, &Replays, net, second, files, out),
        Task::Convert => work_on_runs(alloc, &Converts, net, second, files, out),
        Task::Vcd => work_on_runs(alloc, &Dumps, net, second, files, out),
        Task::Batch => work_on_patterns(alloc, &Batches, net, second, files, out),
        Task::Reset => work_on_patterns(alloc, &Resets, net, second, files, out),
    }
}

// Does a job with a script that is loaded.
fn work_on_script<J: OnScript, F: Files, K: Sink>(
    alloc: Global,
    job: &J,
    net: &Net,
    second: &str,
    files: &mut F,
    out: &mut K,
) -> Ending
    requires { F.granted files.old Second second.now most_text_bytes }
    ensures ends { Ends K.output K.faults
        (IsSecondFileOutcome (observation_of F.held F.faults F.longs files.old files.new)
        (OfScript (J.judges job.now) net.now) second.now)
        out.old out.new result.status }
    ensures stay { CountsStay (observation_of F.held F.faults F.longs files.old files.new) First }
    ensures line { IsLineOnCircuit (F.held files.old)
        (λ text. IsToldLine (HasScriptFault net.now text)) second.now result.status
        result.line }
{
    match files.load(alloc, Place::Second, second, MAX_TEXT) {
        Ok(text) => on_script(alloc, job, net, text.as_slice(), out),
        Err(fault) => without_line(refuse_load(out, Place::Second, fault)),
    }
}

// Does a job with a script with assumptions of time that is loaded.
fn work_on_timed<J: OnTimed, F: Files, K: Sink>(
    alloc: Global,
    job: &J,
    net: &Net,
    second: &str,
    files: &mut F,
    out: &mut K,
) -> Ending
    requires { F.granted files.old Second second.now most_text_bytes }
    ensures ends { Ends K.output K.faults
        (IsSecondFileOutcome (observation_of F.held F.faults F.longs files.old files.new)
        (OfTimed J.may_restart (J.judges job.now) net.now) second.now)
        out.old out.new result.status }
    ensures stay { CountsStay (observation_of F.held F.faults F.longs files.old files.new) First }
    ensures line { IsLineOnCircuit (F.held files.old)
        (λ text. IsToldTimedLine (HasTimedFault J.may_restart net.now text)) second.now result.status
        result.line }
{
    match files.load(alloc, Place::Second, second, MAX_TEXT) {
        Ok(text) => on_timed(alloc, job, net, text.as_slice(), out),
        Err(fault) => without_line(refuse_load(out, Place::Second, fault)),
    }
}

// Does a job with runs that are loaded.
fn work_on_runs<J: OnRuns, F: Files, K: Sink>(
    alloc: Global,
    job: &J,
    net: &Net,
    second: &str,
    files: &mut F,
    out: &mut K,
) -> Ending
    requires { F.granted files.old Second second.now most_text_bytes }
    ensures ends { Ends K.output K.faults
        (IsSecondFileOutcome (observation_of F.held F.faults F.longs files.old files.new)
        (OfRuns (J.judges job.now) net.now) second.now)
        out.old out.new result.status }
    ensures stay { CountsStay (observation_of F.held F.faults F.longs files.old files.new) First }
    ensures line { IsLineOnCircuit (F.held files.old)
        (λ text. IsToldLine (HasRunFault net.now text)) second.now result.status
        result.line }
{
    match files.load(alloc, Place::Second, second, MAX_TEXT) {
        Ok(text) => on_runs(alloc, job, net, text.as_slice(), out),
        Err(fault) => without_line(refuse_load(out, Place::Second, fault)),
    }
}

// Does a job with patterns, which are read while their text is loaded.
fn work_on_patterns<J: OnPatterns, F: Files, K: Sink>(
    alloc: Global,
    job: &J,
    net: &Net,
    second: &str,
    files: &mut F,
    out: &mut K,
) -> Ending
    requires { F.granted files.old Second second.now most_text_bytes }
    ensures ends { Ends K.output K.faults
        (IsSecondFileOutcome (observation_of F.held F.faults F.longs files.old files.new)
        (OfPatterns (J.judges job.now) net.now) second.now)
        out.old out.new result.status }
    ensures stay { CountsStay (observation_of F.held F.faults F.longs files.old files.new) First }
    ensures line { IsLineOnCircuit (F.held files.old)
        (λ text. IsToldLine (HasPatternFault net.now text)) second.now result.status
        result.line }
{
    let Ok(reader) = PatternReader::new(alloc, net.circuit()) else {
        return without_line(Status::Memory);
    };
    let mut reader = reader;
    match files.load_into(alloc, Place::Second, second, MAX_TEXT, &mut reader) {
        Ok(()) => on_patterns(alloc, job, net, reader, out),
        Err(fault) => without_line(refuse_load(out, Place::Second, fault)),
    }
}

// An end at which no line is told.
fn without_line(status: Status) -> Ending
    ensures { result ≡ record { status = status; line = 0 } }
{
    Ending { status, line: 0 }
}
