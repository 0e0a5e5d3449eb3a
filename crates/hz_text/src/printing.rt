//! Printing what all texts share: assignments, and statements of assignments.
ghost use Rattle.std.specs.Prelude.{◌<◌, ◌≤◌, length, All};
ghost use Rattle.std.specs.List.{flat_map};
ghost use Rattle.hz_core.specs.Netlist.{IsCircuit};
ghost use Rattle.hz_write.specs.Writer.{Writes, NoneWaits};
ghost use Rattle.hz_text.specs.Printed.{assignment_text, statement_text, listed_from, all_listed};

use hz_core::Circuit;
use hz_outside::Sink;
use hz_write::Writer;

// Gives a space, and the assignment of a bit to a node.
fn write_assignment<K: Sink>(writer: &mut Writer<'_, K>, circuit: &Circuit, node: u32, bit: bool)
    requires { node < length circuit.now.names }
    ensures { Writes K.output K.faults
        (assignment_text circuit.now (node, bit)) writer.old writer.new }
{
    let name = circuit.name(node);
    if bit {
        writer.three(b" ", name, b"=1");
    } else {
        writer.three(b" ", name, b"=0");
    }
}

/// Gives assignments of bits to nodes, each after a space.
pub fn write_assignments<K: Sink>(
    writer: &mut Writer<'_, K>,
    circuit: &Circuit,
    pairs: &[(u32, bool)],
)
    requires { All (λ pair. pair.0 < length circuit.now.names) pairs.now }
    ensures { Writes K.output K.faults
        (flat_map (assignment_text circuit.now) pairs.now) writer.old writer.new }
{
    for (node, bit) in pairs {
        write_assignment(writer, circuit, *node, *bit);
    }
}

/// Gives the nodes that a start lists, with their bits. The start has an entry for each of the first nodes.
pub fn write_listed<K: Sink>(writer: &mut Writer<'_, K>, circuit: &Circuit, start: &[Option<bool>])
    requires circuit { IsCircuit circuit.now }
    requires nodes { length start.now ≤ length circuit.now.names }
    ensures { Writes K.output K.faults
        (flat_map (assignment_text circuit.now) (listed_from 0 start.now)) writer.old writer.new }
{
    for node in 0..start.len() as u32 {
        if let Some(bit) = start[node as usize] {
            write_assignment(writer, circuit, node, bit);
        }
    }
}

// Gives the first nodes with their bits.
fn write_all<K: Sink>(writer: &mut Writer<'_, K>, circuit: &Circuit, bits: &[bool])
    requires circuit { IsCircuit circuit.now }
    requires nodes { length bits.now ≤ length circuit.now.names }
    ensures { Writes K.output K.faults
        (flat_map (assignment_text circuit.now) (all_listed bits.now)) writer.old writer.new }
{
    for node in 0..bits.len() as u32 {
        write_assignment(writer, circuit, node, bits[node as usize]);
    }
}

/// Gives a line that lists the first nodes, with their bits.
#[tactic(auto, using(hz_write::proofs::Writers::writes_then), unfolding(crate::specs::Printed::statement_text))]
pub fn write_bits<K: Sink>(
    writer: &mut Writer<'_, K>,
    circuit: &Circuit,
    keyword: &[u8],
    bits: &[bool],
)
    requires circuit { IsCircuit circuit.now }
    requires nodes { length bits.now ≤ length circuit.now.names }
    ensures gave { Writes K.output K.faults
        (statement_text circuit.now keyword.now (all_listed bits.now)) writer.old writer.new }
    ensures none_waits { NoneWaits writer.new }
{
    writer.text(keyword);
    write_all(writer, circuit, bits);
    writer.end();
}
