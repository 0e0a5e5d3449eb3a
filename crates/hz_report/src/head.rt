//! The lines that come once.
ghost use Rattle.std.specs.Prelude.{◌≡◌, ◌≤◌, ◌++◌, length, All};
ghost use Rattle.std.specs.List.{flat_map};
ghost use Rattle.hz_net.specs.Network.{IsState, IsVariable};
ghost use Rattle.hz_free.specs.FreePart.{IsFreePart};
ghost use Rattle.hz_write.specs.Writer.{Writes, NoneWaits};
ghost use Rattle.hz_write.specs.Writes.{newline};
ghost use Rattle.hz_text.specs.Printed.{letter_of, assignment_text, all_listed};
ghost use Rattle.hz_text.specs.VariableWord.{spaced_word};
ghost use Rattle.hz_report.specs.Kept.{AreWords, HaveBits};
ghost use Rattle.hz_report.specs.Report.{netlist_line, feedback_line, start_line, head_text};

use hz_free::Free;
use hz_net::Net;
use hz_outside::Sink;
use hz_text::{write_bits, write_variable};
use hz_write::Piece::{Number, Text};
use hz_write::Writer;

/// Gives the size of the network, a line for each of its feedback cycles, and the start: a value for each variable, of which
/// the nodes' are written.
#[tactic(auto, using(hz_write::proofs::Writers::writes_then), unfolding(crate::specs::Report::head_text))]
pub fn write_head<K: Sink>(writer: &mut Writer<'_, K>, net: &Net, free: &Free, start: &[bool])
    requires part { IsFreePart net.now free.now }
    requires start { IsState net.now start.now }
    ensures gave { Writes K.output K.faults (head_text net.now free.now.cycles start.now) writer.old
        writer.new }
    ensures none_waits { NoneWaits writer.new }
{
    write_netlist(writer, net);
    write_feedback(writer, net, free);
    write_start(writer, net, start);
}

/// Gives how many inputs, gates, wires and variables there are.
pub fn write_netlist<K: Sink>(writer: &mut Writer<'_, K>, net: &Net)
    ensures gave { Writes K.output K.faults (netlist_line net.now) writer.old writer.new }
    ensures none_waits { NoneWaits writer.new }
{
    let circuit = net.circuit();
    let inputs = circuit.inputs();
    let nodes = circuit.nodes();
    let variables = circuit.variables();
    writer.line(&[
        Text(b"netlist inputs "),
        Number(inputs),
        Text(b" gates "),
        Number(nodes - inputs),
        Text(b" wires "),
        Number(variables - nodes),
        Text(b" variables "),
        Number(variables),
    ]);
}

/// Gives a line for each feedback cycle.
pub fn write_feedback<K: Sink>(writer: &mut Writer<'_, K>, net: &Net, free: &Free)
    requires part { IsFreePart net.now free.now }
    requires none_waits { NoneWaits writer.old }
    ensures gave { Writes K.output K.faults (flat_map (feedback_line net.now) free.now.cycles)
        writer.old writer.new }
    ensures none_waits { NoneWaits writer.new }
{
    for number in 0..free.cycles() {
        write_cycle(writer, net, free.cycle(number));
    }
}

// Gives the line of a feedback cycle.
#[tactic(auto, using(hz_write::proofs::Writers::writes_then), unfolding(crate::specs::Report::feedback_line))]
fn write_cycle<K: Sink>(writer: &mut Writer<'_, K>, net: &Net, cycle: &[u32])
    requires { All (IsVariable net.now) cycle.now }
    ensures gave { Writes K.output K.faults (feedback_line net.now cycle.now) writer.old
        writer.new }
    ensures none_waits { NoneWaits writer.new }
{
    writer.text(b"feedback");
    write_variables(writer, net, cycle);
    writer.end();
}

// Gives the words of variables, each after a space.
fn write_variables<K: Sink>(writer: &mut Writer<'_, K>, net: &Net, variables: &[u32])
    requires { All (IsVariable net.now) variables.now }
    ensures { Writes K.output K.faults (flat_map (spaced_word net.now) variables.now) writer.old
        writer.new }
{
    for var in variables {
        writer.text(b" ");
        write_variable(writer, net, *var);
    }
}

/// Gives the value of each node at the start.
pub fn write_start<K: Sink>(writer: &mut Writer<'_, K>, net: &Net, start: &[bool])
    requires { IsState net.now start.now }
    ensures gave { Writes K.output K.faults (start_line net.now start.now) writer.old writer.new }
    ensures none_waits { NoneWaits writer.new }
{
    let circuit = net.circuit();
    let nodes = circuit.nodes() as usize;
    write_bits(writer, circuit, b"start", &start[..nodes]);
}

// Gives the words of the first nodes with their bits, by words that are kept, and ends the line.
pub(crate) fn write_kept_bits<K: Sink>(
    writer: &mut Writer<'_, K>,
    net: &Net,
    bits: &[bool],
    text: &mut [u8],
    begins: &[usize],
)
    requires bits { length bits.now ≤ length net.now.names }
    requires kept { AreWords net.now text.old begins.now }
    ensures gave { Writes K.output K.faults
        (flat_map (assignment_text net.now) (all_listed bits.now) ++ newline) writer.old writer.new }
    ensures none_waits { NoneWaits writer.new }
    ensures kept { AreWords net.now text.new begins.now }
{
    set_bits(net, bits, text, begins);
    writer.text(&text[..begins[bits.len()]]);
    writer.end();
}

// Writes bits over those of the words of the first nodes.
fn set_bits(net: &Net, bits: &[bool], text: &mut [u8], begins: &[usize])
    requires bits { length bits.now ≤ length net.now.names }
    requires kept { AreWords net.now text.old begins.now }
    ensures { HaveBits net.now (length net.now.names) bits.now (length bits.now) text.new begins.now }
{
    for node in 0..bits.len() {
        text[begins[node + 1] - 1] = letter_of(bits[node]);
    }
}

// The letter of a bit.
#[inline(always)]
fn letter_of(bit: bool) -> u8
    ensures { result ≡ letter_of bit }
{
    if bit { b'1' } else { b'0' }
}
