//! The one line that `replay` writes.
ghost use Rattle.std.specs.Prelude.{◌≡◌, ◌+◌, ◌<◌, ◌≤◌, length, map, slice_index_or};
ghost use Rattle.hz_net.specs.Network.{IsVariable};
ghost use Rattle.hz_write.specs.Pieces.{piece_text};
ghost use Rattle.hz_write.specs.Writes.{Wrote};
ghost use Rattle.hz_replay.specs.Replaying.{total_steps, total_cycles, steps_of};
ghost use Rattle.hz_replay.specs.Verdict.{yes_line, naming_line, step_line, cycle_line, no_line, accepted_line};
ghost use Rattle.hz_replay.specs.Named.{no_run, step_variable, cycle_variable, named_variable, NamesVariable};
ghost use Rattle.hz_run_text.specs.Limits.{most_steps};

use crate::replaying::RunRefusal;
use hz_gmw::{CycleFault, StepFault};
use hz_net::Net;
use hz_outside::{PutFault, Sink};
use hz_run_text::RunText;
use hz_text::write_variable;
use hz_write::Piece::{Count, Text};
use hz_write::{Piece, Writer, put_line};

// All runs are accepted.
pub(crate) fn put_yes<K: Sink>(out: &mut K, text: &RunText) -> Result<(), PutFault>
    requires { total_steps text.now.runs ≤ most_steps }
    ensures { Wrote K.output K.faults (accepted_line text.now.runs) out.old out.new result }
{
    put_counts(out, text.runs(), count_steps(text), count_cycles(text))
}

// How many steps all runs have.
fn count_steps(text: &RunText) -> usize
    requires { total_steps text.now.runs ≤ most_steps }
    ensures { result ≡ total_steps text.now.runs }
{
    let mut steps = 0;
    for number in 0..text.runs() {
        steps += steps_in(text, number);
    }
    steps
}

// How many steps a run has, those of its cycle with them.
fn steps_in(text: &RunText, number: usize) -> usize
    requires number { number < length text.now.runs }
    requires few { total_steps text.now.runs ≤ most_steps }
    ensures { result ≡ length (steps_of (slice_index_or text.now.runs number no_run)) }
{
    let lead = text.lead(number).steps();
    match text.cycle(number) {
        Some(cycle) => lead + cycle.steps(),
        None => lead,
    }
}

// How many runs have a cycle.
fn count_cycles(text: &RunText) -> usize
    ensures { result ≡ total_cycles text.now.runs }
{
    let mut cycles = 0;
    for number in 0..text.runs() {
        if text.cycle(number).is_some() {
            cycles += 1;
        }
    }
    cycles
}

// The counts of runs that are accepted.
#[tactic(auto, unfolding(crate::specs::Verdict::yes_line))]
fn put_counts<K: Sink>(
    out: &mut K,
    runs: usize,
    steps: usize,
    cycles: usize,
) -> Result<(), PutFault>
    ensures { Wrote K.output K.faults (yes_line runs steps cycles) out.old out.new result }
{
    put_line(
        out,
        &[
            Text(b"yes: runs "),
            Count(runs),
            Text(b" steps "),
            Count(steps),
            Text(b" cycles "),
            Count(cycles),
        ],
    )
}

// A run is refused.
pub(crate) fn put_no<K: Sink>(
    out: &mut K,
    net: &Net,
    run: usize,
    why: RunRefusal,
) -> Result<(), PutFault>
    requires { NamesVariable net.now (named_variable why) }
    ensures { Wrote K.output K.faults (no_line net.now run why) out.old out.new result }
{
    match why {
        RunRefusal::Step { number, fault } => put_step(out, net, run, number, fault),
        RunRefusal::Cycle { fault } => put_cycle(out, net, run, fault),
    }
}

// A step is refused.
fn put_step<K: Sink>(
    out: &mut K,
    net: &Net,
    run: usize,
    step: usize,
    fault: StepFault,
) -> Result<(), PutFault>
    requires { NamesVariable net.now (step_variable fault) }
    ensures { Wrote K.output K.faults (step_line net.now run step fault) out.old out.new result }
{
    match fault {
        StepFault::Empty => put_line(
            out,
            &[
                Text(b"no: run "),
                Count(run),
                Text(b" step "),
                Count(step),
                Text(b": empty"),
            ],
        ),
        StepFault::Repeated { var } => put_naming(
            out,
            net,
            &[
                Text(b"no: run "),
                Count(run),
                Text(b" step "),
                Count(step),
                Text(b": repeated "),
            ],
            var,
        ),
        StepFault::Stable { var } => put_naming(
            out,
            net,
            &[
                Text(b"no: run "),
                Count(run),
                Text(b" step "),
                Count(step),
                Text(b": stable "),
            ],
            var,
        ),
    }
}

// A cycle is refused.
fn put_cycle<K: Sink>(out: &mut K, net: &Net, run: usize, fault: CycleFault) -> Result<(), PutFault>
    requires { IsVariable net.now (cycle_variable fault) }
    ensures { Wrote K.output K.faults (cycle_line net.now run fault) out.old out.new result }
{
    match fault {
        CycleFault::Differs { var } => {
            put_naming(
                out,
                net,
                &[Text(b"no: run "), Count(run), Text(b" cycle: differs ")],
                var,
            )
        }
        CycleFault::NotStable { var } => {
            put_naming(
                out,
                net,
                &[Text(b"no: run "), Count(run), Text(b" cycle: not stable ")],
                var,
            )
        }
        CycleFault::Transient { var } => {
            put_naming(
                out,
                net,
                &[Text(b"no: run "), Count(run), Text(b" cycle: transient ")],
                var,
            )
        }
    }
}

// A line of words, the last of which is a variable's name.
fn put_naming<K: Sink>(
    out: &mut K,
    net: &Net,
    words: &[Piece<'_>],
    var: u32,
) -> Result<(), PutFault>
    requires { IsVariable net.now var }
    ensures { Wrote K.output K.faults
        (naming_line net.now (map piece_text words.now) var) out.old out.new result }
{
    let mut writer = Writer::new(out);
    writer.add(words);
    write_variable(&mut writer, net, var);
    writer.end();
    writer.finish()
}
