//! Writing dumps.
ghost use Rattle.std.specs.Prelude.{◌≡◌, ◌+◌, ◌<◌, ◌≤◌, ◌^◌, ◌++◌, [], ◌∷◌, length, All};
ghost use Rattle.std.specs.List.{flat_map, range_with_len};
ghost use Rattle.hz_net.specs.Variables.{expansion_of};
ghost use Rattle.hz_gmw.specs.Runs.{state_after, end_of};
ghost use Rattle.hz_core.specs.Limits.{most_variables};
ghost use Rattle.hz_write.specs.Writer.{Writes, NoneWaits};
ghost use Rattle.hz_text.specs.Printed.{letter_of};
ghost use Rattle.hz_vcd.specs.Word.{words_of};
ghost use Rattle.hz_vcd.specs.Dump.{AreFlips, IsDump, variables_of, value_word, state_words, dump_step, steps_words};
ghost use Rattle.hz_vcd.specs.Printed.{declaration_line, word_line, word_lines, dump_head, dump_text};
ghost use Rattle.hz_vcd.specs.Inside.{value_line, change_line};
ghost use Rattle.hz_vcd.specs.Steps.{steps_of_cycle, steps_of_run};

use crate::code::write_code;
use hz_core::MAX_VARIABLES;
use hz_gmw::Run;
use hz_net::Net;
use hz_outside::Sink;
use hz_text::write_variable;
use hz_write::Piece::{Count, Text};
use hz_write::Writer;

// Room for the state of any network.
const ROOM: usize = MAX_VARIABLES as usize;

/// Gives a run as a value change dump of IEEE 1364, which waveform viewers read.
///
/// The run begins at the state in which the nodes have these bits and each wire has its source's bit. Its steps are those of
/// the lead, and then those of the cycle. A run has an order and no times, so the steps are at the times 1, 2, .., and the
/// unit, a nanosecond, means nothing. The dump has no date, version or comment.
///
/// This takes no memory but 200,000 bytes of the stack, and [`write_within`] takes room that the caller has. The writer's
/// [`finish`](Writer::finish) returns whether all was written.
pub fn write<K: Sink>(
    writer: &mut Writer<'_, K>,
    net: &Net,
    nodes: &[bool],
    lead: &Run,
    cycle: Option<&Run>,
)
    requires nodes { length nodes.now ≡ length net.now.names }
    requires lead { All (AreFlips (variables_of net.now)) lead.now.steps }
    requires cycle { All (AreFlips (variables_of net.now)) (steps_of_cycle cycle) }
    requires few { length lead.now.steps + length (steps_of_cycle cycle) < 2 ^ 32 }
    ensures gave { Writes K.output K.faults
        (dump_text net.now (expansion_of net.now nodes.now) (steps_of_run lead.now cycle.entry))
        writer.old writer.new }
    ensures dump { let state = expansion_of net.now nodes.now in
        let steps = steps_of_run lead.now cycle.entry in
        IsDump net.now (words_of (dump_text net.now state steps)) state steps }
    ensures none_waits { NoneWaits writer.new }
{
    let mut room = [false; ROOM];
    // No network has more variables, as its length says.
    let _variables = net.len();
    write_within(writer, net, nodes, &mut room, lead, cycle);
}

/// The same, with room for a bit of each variable, which is written over.
pub fn write_within<K: Sink>(
    writer: &mut Writer<'_, K>,
    net: &Net,
    nodes: &[bool],
    room: &mut [bool],
    lead: &Run,
    cycle: Option<&Run>,
)
    requires nodes { length nodes.now ≡ length net.now.names }
    requires room { variables_of net.now ≤ length room.old }
    requires lead { All (AreFlips (variables_of net.now)) lead.now.steps }
    requires cycle { All (AreFlips (variables_of net.now)) (steps_of_cycle cycle) }
    requires few { length lead.now.steps + length (steps_of_cycle cycle) < 2 ^ 32 }
    ensures gave { Writes K.output K.faults
        (dump_text net.now (expansion_of net.now nodes.now) (steps_of_run lead.now cycle.entry))
        writer.old writer.new }
    ensures dump { let state = expansion_of net.now nodes.now in
        let steps = steps_of_run lead.now cycle.entry in
        IsDump net.now (words_of (dump_text net.now state steps)) state steps }
    ensures none_waits { NoneWaits writer.new }
{
    let state = &mut room[..net.len() as usize];
    net.expand(nodes, state);
    write_head(writer, net);
    write_run(writer, state, lead, cycle);
}

// Gives the lines of the head.
#[tactic(auto, using(hz_write::proofs::Writers::writes_then), unfolding(crate::specs::Printed::dump_head))]
fn write_head<K: Sink>(writer: &mut Writer<'_, K>, net: &Net)
    ensures gave { Writes K.output K.faults (dump_head net.now) writer.old writer.new }
    ensures none_waits { NoneWaits writer.new }
{
    writer.line(&[Text(b"$timescale 1 ns $end")]);
    writer.line(&[Text(b"$scope module hazard $end")]);
    write_declarations(writer, net);
    writer.line(&[Text(b"$upscope $end")]);
    writer.line(&[Text(b"$enddefinitions $end")]);
}

// Gives the declarations of all variables.
fn write_declarations<K: Sink>(writer: &mut Writer<'_, K>, net: &Net)
    ensures gave { Writes K.output K.faults
        (flat_map (declaration_line net.now) (range_with_len 0 (variables_of net.now)))
        writer.old writer.new }
    ensures none_waits { NoneWaits writer.old → NoneWaits writer.new }
{
    for var in 0..net.len() {
        write_declaration(writer, net, var);
    }
}

/// Gives the declaration of a variable.
pub(crate) fn write_declaration<K: Sink>(writer: &mut Writer<'_, K>, net: &Net, var: u32)
    requires var { var < variables_of net.now }
    requires few { variables_of net.now ≤ most_variables }
    ensures gave { Writes K.output K.faults (declaration_line net.now var) writer.old writer.new }
    ensures none_waits { NoneWaits writer.new }
{
    writer.text(b"$var wire 1 ");
    write_code(writer, var);
    writer.text(b" \\");
    write_variable(writer, net, var);
    writer.line(&[Text(b" $end")]);
}

// Gives the state at the time 0.
fn write_state<K: Sink>(writer: &mut Writer<'_, K>, state: &[bool])
    requires { length state.now ≤ most_variables }
    ensures gave { Writes K.output K.faults
        (word_lines (state_words state.now)) writer.old writer.new }
    ensures none_waits { NoneWaits writer.new }
{
    writer.line(&[Text(b"#0")]);
    writer.line(&[Text(b"$dumpvars")]);
    write_values(writer, state);
    writer.line(&[Text(b"$end")]);
}

// Gives the bits of a state.
fn write_values<K: Sink>(writer: &mut Writer<'_, K>, state: &[bool])
    requires { length state.now ≤ most_variables }
    ensures gave { Writes K.output K.faults
        (flat_map (value_line state.now) (range_with_len 0 (length state.now)))
        writer.old writer.new }
    ensures none_waits { NoneWaits writer.old → NoneWaits writer.new }
{
    for var in 0..state.len() as u32 {
        write_value(writer, var, state[var as usize]);
    }
}

// Gives the line of a variable and its bit.
fn write_value<K: Sink>(writer: &mut Writer<'_, K>, var: u32, bit: bool)
    requires { var < most_variables }
    ensures gave { Writes K.output K.faults (word_line (value_word var bit)) writer.old writer.new }
    ensures none_waits { NoneWaits writer.new }
{
    writer.text(letter(bit));
    write_code(writer, var);
    writer.end();
}

// The letter of a bit.
fn letter(bit: bool) -> &'static [u8]
    ensures { result.now ≡ letter_of bit ∷ [] }
{
    if bit { b"1" } else { b"0" }
}

// Gives a state at the time 0, and from there the steps of a run: those of its lead, and then those of its cycle.
fn write_run<K: Sink>(
    writer: &mut Writer<'_, K>,
    state: &mut [bool],
    lead: &Run,
    cycle: Option<&Run>,
)
    requires state { length state.old ≤ most_variables }
    requires lead { All (AreFlips (length state.old)) lead.now.steps }
    requires cycle { All (AreFlips (length state.old)) (steps_of_cycle cycle) }
    requires few { length lead.now.steps + length (steps_of_cycle cycle) < 2 ^ 32 }
    ensures gave { Writes K.output K.faults
        (word_lines (state_words state.old)
        ++ word_lines (steps_words 1 state.old (steps_of_run lead.now cycle.entry)))
        writer.old writer.new }
    ensures none_waits { NoneWaits writer.new }
{
    write_state(writer, state);
    write_steps(writer, state, 1, lead);
    if let Some(cycle) = cycle {
        write_steps(writer, state, 1 + lead.steps(), cycle);
    }
}

// Gives the steps of a run from a state, the first one at a time. Afterwards the state is the last of the run.
fn write_steps<K: Sink>(writer: &mut Writer<'_, K>, state: &mut [bool], time: usize, run: &Run)
    requires state { length state.old ≤ most_variables }
    requires flips { All (AreFlips (length state.old)) run.now.steps }
    requires few { time + length run.now.steps ≤ 2 ^ 32 }
    ensures gave { Writes K.output K.faults
        (word_lines (steps_words time state.old run.now.steps)) writer.old writer.new }
    ensures state { state.new ≡ end_of state.old run.now.steps }
    ensures none_waits { NoneWaits writer.old → NoneWaits writer.new }
{
    for number in 0..run.steps() {
        let flips = run.step(number);
        write_step(writer, state, time + number, flips);
        flip(state, flips);
    }
}

// Gives a step from a state.
fn write_step<K: Sink>(writer: &mut Writer<'_, K>, state: &[bool], time: usize, flips: &[u32])
    requires state { length state.now ≤ most_variables }
    requires flips { AreFlips (length state.now) flips.now }
    ensures gave { Writes K.output K.faults
        (word_lines (dump_step time state.now flips.now)) writer.old writer.new }
    ensures none_waits { NoneWaits writer.new }
{
    writer.line(&[Text(b"#"), Count(time)]);
    write_changes(writer, state, flips);
}

// Gives the bits that listed variables get in a step from a state.
fn write_changes<K: Sink>(writer: &mut Writer<'_, K>, state: &[bool], flips: &[u32])
    requires state { length state.now ≤ most_variables }
    requires flips { All (λ var. var < length state.now) flips.now }
    ensures gave { Writes K.output K.faults
        (flat_map (change_line state.now) flips.now) writer.old writer.new }
    ensures none_waits { NoneWaits writer.old → NoneWaits writer.new }
{
    for var in flips {
        write_value(writer, *var, !state[*var as usize]);
    }
}

// Changes the listed variables, each once.
fn flip(state: &mut [bool], flips: &[u32])
    requires { AreFlips (length state.old) flips.now }
    ensures { state.new ≡ state_after flips.now state.old }
{
    for var in flips {
        state[*var as usize] = !state[*var as usize];
    }
}
