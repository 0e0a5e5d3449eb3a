//! Printing run texts.

ghost use Rattle.std.specs.Prelude.{◌≡◌, ◌<◌, ◌≤◌, ◌∷◌, [], length, All, IfOk, codes};
ghost use Rattle.std.specs.List.{flat_map};
ghost use Rattle.std.specs.Option.{option_map};
ghost use Rattle.hz_core.specs.Netlist.{IsCircuit};
ghost use Rattle.hz_net.specs.Network.{IsVariable};
ghost use Rattle.hz_write.specs.Writer.{Writes, NoneWaits};
ghost use Rattle.hz_write.specs.Writes.{Wrote};
ghost use Rattle.hz_run_text.specs.RunFault.{IsRunFaultless};
ghost use Rattle.hz_text.specs.VariableWord.{spaced_word};
ghost use Rattle.hz_run_text.specs.RunPrinted.{step_text, cycle_text, run_text, net_line, format_text, states_text, run_text_printed};
ghost use Rattle.hz_run_text.specs.RunText.{IsRunTextFor, IsRunValue};
ghost use Rattle.hz_run_text.specs.RunValue.{all_steps};
ghost use Rattle.hz_text.specs.RunParts.{cycle_steps};

use crate::size::{Size, size_of};
use crate::text::RunText;
use hz_core::{Circuit, Memory};
use hz_gmw::Run;
use hz_net::Net;
use hz_outside::{PlainSink, PutFault, Sink};
use hz_text::{digit_after, gate_and_pin, write_bits, write_variable_after};
use hz_write::Piece::{Number, Text};
use hz_write::Writer;
use std::alloc::Global;

/// Prints a run text of a network, in format 2: its number, the size of the network, the start in the order of the nodes,
/// the input in the order of the inputs, then each run, and the end. Keywords are in small letters, words are separated by
/// one space, and each line ends with a line feed. The wire into the second pin of a gate `g` is written `g(2)`. If the text has at most 16,777,216 bytes,
/// [`crate::read_run`] gives the run text back.
pub fn print_run(alloc: Global, net: &Net, text: &RunText) -> Result<Vec<u8>, Memory>
    requires { IsRunTextFor net.now text.now }
    ensures text { IfOk result (λ printed. printed.items ≡ run_text_printed net.now text.now) }
    ensures faultless { IfOk result (λ printed. IsRunFaultless net.now printed.items) }
    ensures value { IfOk result (λ printed. IsRunValue net.now printed.items text.now) }
{
    let mut sink = PlainSink::new(alloc);
    match write_run_text(&mut sink, net, text) {
        Ok(()) => Ok(sink.into_bytes()),
        Err(PutFault::Memory) => Err(Memory),
        // No put into memory fails.
        Err(PutFault::Failed) => unreachable!(),
    }
}

/// Writes the lines of a run text, as [`print_run`] prints them. They are in format 2, whichever they were read in.
pub fn write_run_text<K: Sink>(out: &mut K, net: &Net, text: &RunText) -> Result<(), PutFault>
    requires { IsRunTextFor net.now text.now }
    ensures circuit { IsCircuit net.now }
    ensures wrote { Wrote K.output K.faults
        (run_text_printed net.now text.now) out.old out.new result }
{
    let mut writer = Writer::new(out);
    write_states(&mut writer, net.circuit(), text.nodes(), text.input());
    write_all(&mut writer, net, text);
    write_end(&mut writer);
    writer.finish()
}

/// Gives the lines before the runs of a run text: the format, the size of the network, the bit of each node at the start, and
/// that of each input.
#[tactic(auto, using(hz_write::proofs::Writers::writes_then), unfolding(crate::specs::RunPrinted::states_text))]
pub fn write_states<K: Sink>(
    writer: &mut Writer<'_, K>,
    circuit: &Circuit,
    nodes: &[bool],
    input: &[bool],
)
    requires circuit { IsCircuit circuit.now }
    requires nodes { length nodes.now ≤ length circuit.now.names }
    requires input { length input.now ≤ length circuit.now.names }
    ensures gave { Writes K.output K.faults
        (states_text circuit.now nodes.now input.now) writer.old writer.new }
    ensures none_waits { NoneWaits writer.new }
{
    write_format(writer, circuit);
    write_bits(writer, circuit, b"start", nodes);
    write_bits(writer, circuit, b"input", input);
}

/// Gives the first lines of a run text: the format, and the size of the network.
#[tactic(auto, using(hz_write::proofs::Writers::writes_then), unfolding(crate::specs::RunPrinted::format_text))]
pub fn write_format<K: Sink>(writer: &mut Writer<'_, K>, circuit: &Circuit)
    requires { IsCircuit circuit.now }
    ensures gave { Writes K.output K.faults (format_text circuit.now) writer.old writer.new }
    ensures none_waits { NoneWaits writer.new }
{
    writer.end_by(b"runs 2\n");
    write_net(writer, size_of(circuit));
}

// Gives the line with the size of a network.
#[tactic(auto, using(hz_write::proofs::Writers::writes_same), unfolding(crate::specs::RunPrinted::net_line, hz_write::specs::Writes::line_of))]
fn write_net<K: Sink>(writer: &mut Writer<'_, K>, size: Size)
    ensures gave { Writes K.output K.faults (net_line size) writer.old writer.new }
    ensures none_waits { NoneWaits writer.new }
{
    writer.line(&[
        Text(b"net "),
        Number(size.inputs),
        Text(b" "),
        Number(size.gates),
        Text(b" "),
        Number(size.wires),
    ]);
}

/// Gives the line after the runs of a run text.
#[tactic(auto, using(hz_write::proofs::Writers::writes_then))]
pub fn write_end<K: Sink>(writer: &mut Writer<'_, K>)
    ensures gave { Writes K.output K.faults (codes "end\n") writer.old writer.new }
    ensures none_waits { NoneWaits writer.new }
{
    writer.end_by(b"end\n");
}

// Gives the lines of the runs.
fn write_all<K: Sink>(writer: &mut Writer<'_, K>, net: &Net, text: &RunText)
    requires variables { All (λ flips. All (IsVariable net.now) flips) (all_steps text.now.runs) }
    requires none_waits { NoneWaits writer.old }
    ensures gave { Writes K.output K.faults
        (flat_map (run_text net.now) text.now.runs) writer.old writer.new }
    ensures none_waits { NoneWaits writer.new }
{
    for number in 0..text.runs() {
        write_run(writer, net, text.lead(number), text.cycle(number));
    }
}

/// Gives the lines of a run: its lead, and its cycle, if it has one.
#[tactic(auto, using(hz_write::proofs::Writers::writes_then), unfolding(crate::specs::RunPrinted::run_text))]
pub fn write_run<K: Sink>(writer: &mut Writer<'_, K>, net: &Net, lead: &Run, cycle: Option<&Run>)
    requires lead { All (λ flips. All (IsVariable net.now) flips) lead.now.steps }
    requires cycle { All (λ flips. All (IsVariable net.now) flips)
        (cycle_steps (option_map (λ run. run.now.steps) cycle)) }
    ensures gave { Writes K.output K.faults
        (run_text net.now
        (record {
          lead = lead.now.steps;
          cycle = option_map (λ run. run.now.steps) cycle.entry;
        }))
        writer.old writer.new }
    ensures none_waits { NoneWaits writer.new }
{
    writer.end_by(b"run\n");
    write_steps(writer, net, lead);
    write_cycle(writer, net, cycle);
}

// Gives the lines of a cycle, if there is one.
#[tactic(auto, using(hz_write::proofs::Writers::writes_then, hz_write::proofs::Writers::writes_nothing))]
fn write_cycle<K: Sink>(writer: &mut Writer<'_, K>, net: &Net, cycle: Option<&Run>)
    requires variables { All (λ flips. All (IsVariable net.now) flips)
        (cycle_steps (option_map (λ run. run.now.steps) cycle)) }
    requires none_waits { NoneWaits writer.old }
    ensures gave { Writes K.output K.faults
        (cycle_text net.now (option_map (λ run. run.now.steps) cycle.entry)) writer.old writer.new }
    ensures none_waits { NoneWaits writer.new }
{
    let Some(steps) = cycle else {
        return;
    };
    writer.end_by(b"cycle\n");
    write_steps(writer, net, steps);
}

// Gives a line for each step.
#[tactic(auto, using(hz_write::proofs::Writers::writes_then, hz_write::proofs::Writers::writes_nothing))]
fn write_steps<K: Sink>(writer: &mut Writer<'_, K>, net: &Net, run: &Run)
    requires variables { All (λ flips. All (IsVariable net.now) flips) run.now.steps }
    requires none_waits { NoneWaits writer.old }
    ensures gave { Writes K.output K.faults
        (flat_map (step_text net.now) run.now.steps) writer.old writer.new }
    ensures none_waits { NoneWaits writer.new }
{
    for number in 0..run.steps() {
        write_step(writer, net, run.step(number));
    }
}

// Gives the line of a step. Most steps change one variable.
fn write_step<K: Sink>(writer: &mut Writer<'_, K>, net: &Net, flips: &[u32])
    requires { All (IsVariable net.now) flips.now }
    ensures gave { Writes K.output K.faults (step_text net.now flips.now) writer.old writer.new }
    ensures none_waits { NoneWaits writer.new }
{
    match flips {
        [var] => write_single(writer, net, *var),
        _ => write_several(writer, net, flips),
    }
}

// Gives the line of a step of one variable.
fn write_single<K: Sink>(writer: &mut Writer<'_, K>, net: &Net, var: u32)
    requires { IsVariable net.now var }
    ensures gave { Writes K.output K.faults (step_text net.now (var ∷ [])) writer.old writer.new }
    ensures none_waits { NoneWaits writer.new }
{
    let circuit = net.circuit();
    if var < circuit.nodes() {
        writer.end_by_three(b"step ", circuit.name(var), b"\n");
    } else {
        write_single_wire(writer, net, var);
    }
}

// Gives the line of a step of one wire. Most pins have a number of one digit.
fn write_single_wire<K: Sink>(writer: &mut Writer<'_, K>, net: &Net, wire: u32)
    requires node { length net.now.names ≤ wire }
    requires within { IsVariable net.now wire }
    ensures gave { Writes K.output K.faults
        (step_text net.now (wire ∷ [])) writer.old writer.new }
    ensures none_waits { NoneWaits writer.new }
{
    let (name, pin) = gate_and_pin(net, wire);
    if pin < 9 {
        writer.end_by_three(b"step ", name, &[b'(', digit_after(pin), b')', b'\n']);
    } else {
        write_several(writer, net, &[wire]);
    }
}

// Gives the line of a step of any number of variables.
#[inline(never)]
#[tactic(auto, using(hz_write::proofs::Writers::writes_then), unfolding(crate::specs::RunPrinted::step_text))]
fn write_several<K: Sink>(writer: &mut Writer<'_, K>, net: &Net, flips: &[u32])
    requires { All (IsVariable net.now) flips.now }
    ensures gave { Writes K.output K.faults (step_text net.now flips.now) writer.old writer.new }
    ensures none_waits { NoneWaits writer.new }
{
    writer.text(b"step");
    write_variables(writer, net, flips);
    writer.end();
}

// Gives the words of variables, each after a space.
#[tactic(auto, using(hz_write::proofs::Writers::writes_then, hz_write::proofs::Writers::writes_nothing))]
fn write_variables<K: Sink>(writer: &mut Writer<'_, K>, net: &Net, flips: &[u32])
    requires { All (IsVariable net.now) flips.now }
    ensures { Writes K.output K.faults
        (flat_map (spaced_word net.now) flips.now) writer.old writer.new }
{
    for var in flips {
        write_variable_after(writer, net, b" ", *var);
    }
}
