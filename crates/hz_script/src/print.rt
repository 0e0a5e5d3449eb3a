//! Printing scripts.

ghost use Rattle.std.specs.Prelude.{◌≡◌, ◌<◌, length, All, IfOk, codes};
ghost use Rattle.std.specs.List.{flat_map};
ghost use Rattle.hz_core.specs.Netlist.{IsCircuit};
ghost use Rattle.hz_write.specs.Writer.{Writes, NoneWaits};
ghost use Rattle.hz_write.specs.Writes.{Wrote};
ghost use Rattle.hz_text.specs.Printed.{statement_text, listed_from};
ghost use Rattle.hz_script.specs.ScriptPrinted.{script_text};
ghost use Rattle.hz_script.specs.ScriptFault.{IsScriptFaultless};
ghost use Rattle.hz_script.specs.ScriptText.{IsScriptFor, IsValue};

use crate::script::Script;
use hz_core::{Circuit, Memory};
use hz_outside::{PlainSink, PutFault, Sink};
use hz_text::{write_assignments, write_listed};
use hz_write::Writer;
use std::alloc::Global;

/// Prints a script of a circuit: the start in the order of the nodes, then each change in its own order. Keywords are in
/// small letters, words are separated by one space, and each line ends with a line feed. If the text has at most
/// 16,777,216 bytes, [`crate::read_script`] gives the script back.
pub fn print_script(alloc: Global, circuit: &Circuit, script: &Script) -> Result<Vec<u8>, Memory>
    requires { IsScriptFor circuit.now script.now }
    ensures text { IfOk result (λ text. text.items ≡ script_text circuit.now script.now) }
    ensures faultless { IfOk result (λ text. IsScriptFaultless circuit.now text.items) }
    ensures value { IfOk result (λ text. IsValue circuit.now text.items script.now) }
{
    let mut sink = PlainSink::new(alloc);
    match write_script(&mut sink, circuit, script) {
        Ok(()) => Ok(sink.into_bytes()),
        Err(PutFault::Memory) => Err(Memory),
        // No put into memory fails.
        Err(PutFault::Failed) => unreachable!(),
    }
}

// Writes the lines of a script.
fn write_script<K: Sink>(out: &mut K, circuit: &Circuit, script: &Script) -> Result<(), PutFault>
    requires { IsScriptFor circuit.now script.now }
    ensures circuit { IsCircuit circuit.now }
    ensures wrote { Wrote K.output K.faults
        (script_text circuit.now script.now) out.old out.new result }
{
    circuit.keeps_shape();
    let mut writer = Writer::new(out);
    write_start(&mut writer, circuit, script.start());
    write_changes(&mut writer, circuit, script);
    writer.finish()
}

// Gives the line of a start, which has an entry for each node.
#[tactic(auto, using(hz_write::proofs::Writers::writes_then), unfolding(hz_text::specs::Printed::statement_text))]
fn write_start<K: Sink>(writer: &mut Writer<'_, K>, circuit: &Circuit, start: &[Option<bool>])
    requires circuit { IsCircuit circuit.now }
    requires nodes { length start.now ≡ length circuit.now.names }
    ensures gave { Writes K.output K.faults
        (statement_text circuit.now (codes "start") (listed_from 0 start.now)) writer.old
        writer.new }
    ensures none_waits { NoneWaits writer.new }
{
    writer.text(b"start");
    write_listed(writer, circuit, start);
    writer.end();
}

// Gives the line of each change.
#[tactic(auto, using(hz_write::proofs::Writers::writes_then, hz_write::proofs::Writers::writes_nothing))]
fn write_changes<K: Sink>(writer: &mut Writer<'_, K>, circuit: &Circuit, script: &Script)
    requires script { IsScriptFor circuit.now script.now }
    requires none_waits { NoneWaits writer.old }
    ensures gave { Writes K.output K.faults
        (flat_map (statement_text circuit.now (codes "change")) script.now.changes) writer.old
        writer.new }
    ensures none_waits { NoneWaits writer.new }
{
    for number in 0..script.changes() {
        write_statement(writer, circuit, b"change", script.change(number));
    }
}

// Gives a statement on a line of its own.
#[tactic(auto, using(hz_write::proofs::Writers::writes_then), unfolding(hz_text::specs::Printed::statement_text))]
fn write_statement<K: Sink>(
    writer: &mut Writer<'_, K>,
    circuit: &Circuit,
    keyword: &[u8],
    pairs: &[(u32, bool)],
)
    requires { All (λ pair. pair.0 < length circuit.now.names) pairs.now }
    ensures gave { Writes K.output K.faults
        (statement_text circuit.now keyword.now pairs.now) writer.old writer.new }
    ensures none_waits { NoneWaits writer.new }
{
    writer.text(keyword);
    write_assignments(writer, circuit, pairs);
    writer.end();
}
