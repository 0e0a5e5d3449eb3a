//! The words of variables.

ghost use Rattle.std.specs.Prelude.{◌≡◌, ◌+◌, ◌<◌, ◌≤◌, ◌∷◌, ◌++◌, [], length, decimal};
ghost use Rattle.hz_core.specs.Limits.{most_gate_pins};
ghost use Rattle.hz_net.specs.Network.{IsVariable};
ghost use Rattle.hz_write.specs.Writer.{Writes};
ghost use Rattle.hz_text.specs.VariableWord.{variable_word};

use hz_net::{Net, VarKind};
use hz_outside::Sink;
use hz_write::Piece::{Number, Text};
use hz_write::Writer;

/// Gives the word of a variable: a node's own name, or the gate and the pin that a wire goes into, counted from 1.
pub fn write_variable<K: Sink>(writer: &mut Writer<'_, K>, net: &Net, var: u32)
    requires { IsVariable net.now var }
    ensures { Writes K.output K.faults (variable_word net.now var) writer.old writer.new }
{
    write_variable_after(writer, net, b"", var);
}

/// Gives some bytes, and the word of a variable.
#[inline(always)]
pub fn write_variable_after<K: Sink>(writer: &mut Writer<'_, K>, net: &Net, front: &[u8], var: u32)
    requires { IsVariable net.now var }
    ensures { Writes K.output K.faults
        (front.now ++ variable_word net.now var) writer.old writer.new }
{
    let circuit = net.circuit();
    if var < circuit.nodes() {
        writer.three(front, circuit.name(var), b"");
    } else {
        write_wire_after(writer, net, front, var);
    }
}

// Gives some bytes, and the word of a wire. Most pins have a number of one digit.
#[inline(always)]
fn write_wire_after<K: Sink>(writer: &mut Writer<'_, K>, net: &Net, front: &[u8], wire: u32)
    requires node { length net.now.names ≤ wire }
    requires within { IsVariable net.now wire }
    ensures { Writes K.output K.faults
        (front.now ++ variable_word net.now wire) writer.old writer.new }
{
    let (name, pin) = gate_and_pin(net, wire);
    if pin < 9 {
        writer.three(front, name, &[b'(', digit_after(pin), b')']);
    } else {
        writer.text(front);
        writer.text(name);
        write_pin(writer, pin);
    }
}

// Gives the number of a pin, which is counted from 0, in parentheses.
fn write_pin<K: Sink>(writer: &mut Writer<'_, K>, pin: u32)
    requires { pin < most_gate_pins }
    ensures { Writes K.output K.faults (40 ∷ decimal (pin + 1) ++ 41 ∷ []) writer.old writer.new }
{
    writer.add(&[Text(b"("), Number(pin + 1), Text(b")")]);
}

/// The digit that comes after a number below 9.
pub fn digit_after(number: u32) -> u8
    requires { number < 9 }
    ensures { result ≡ 49 + number }
{
    b'1' + number as u8
}

/// The name of the gate that a wire goes into, and its pin, which is counted from 0.
pub fn gate_and_pin(net: &Net, wire: u32) -> (&[u8], u32)
    requires node { length net.now.names ≤ wire }
    requires within { IsVariable net.now wire }
    ensures word { variable_word net.now wire
        ≡ result.0.now ++ 40 ∷ decimal (result.1 + 1) ++ 41 ∷ [] }
    ensures pin { result.1 < most_gate_pins }
{
    let circuit = net.circuit();
    match net.kind_of(wire) {
        VarKind::Wire { gate, pin, .. } => (circuit.name(gate), pin),
        VarKind::Input { .. } => unreachable!(),
        VarKind::Gate { .. } => unreachable!(),
    }
}
