//! Printing patterns.

ghost use Rattle.std.specs.Prelude.{◌≡◌, ◌<◌, length, IfOk, map, codes, is_some};
ghost use Rattle.std.specs.List.{flat_map, list_any};
ghost use Rattle.hz_core.specs.Netlist.{IsCircuit};
ghost use Rattle.hz_write.specs.Writer.{Writes, NoneWaits};
ghost use Rattle.hz_write.specs.Writes.{Wrote};
ghost use Rattle.hz_text.specs.Printed.{letter_of, statement_text, listed_from};
ghost use Rattle.hz_pattern_text.specs.PatternFault.{IsPatternFaultless};
ghost use Rattle.hz_pattern_text.specs.PatternPrinted.{pattern_text, hold_text, patterns_text};
ghost use Rattle.hz_pattern_text.specs.PatternText.{ArePatternsFor, IsPatternsValue};
ghost use Rattle.hz_pattern_text.specs.PatternWord.{bits_word};

use crate::value::Patterns;
use hz_core::{Circuit, Memory};
use hz_outside::{PlainSink, PutFault, Sink};
use hz_text::write_listed;
use hz_write::Writer;
use std::alloc::Global;

/// Prints patterns of a circuit: a line `hold` in the order of the nodes, if some gate is held, then each pattern, in its own
/// order. Keywords are in small letters, words are separated by one space, and each line ends with a line feed. If the text
/// has at most 16,777,216 bytes, [`crate::read_patterns`] gives the patterns back.
pub fn print_patterns(
    alloc: Global,
    circuit: &Circuit,
    patterns: &Patterns,
) -> Result<Vec<u8>, Memory>
    requires { ArePatternsFor circuit.now patterns.now }
    ensures text { IfOk result (λ text. text.items ≡ patterns_text circuit.now patterns.now) }
    ensures faultless { IfOk result (λ text. IsPatternFaultless circuit.now text.items) }
    ensures value { IfOk result (λ text. IsPatternsValue circuit.now text.items patterns.now) }
{
    let mut sink = PlainSink::new(alloc);
    match write_patterns(&mut sink, circuit, patterns) {
        Ok(()) => Ok(sink.into_bytes()),
        Err(PutFault::Memory) => Err(Memory),
        // No put into memory fails.
        Err(PutFault::Failed) => unreachable!(),
    }
}

// Writes the lines of patterns.
fn write_patterns<K: Sink>(
    out: &mut K,
    circuit: &Circuit,
    patterns: &Patterns,
) -> Result<(), PutFault>
    requires { ArePatternsFor circuit.now patterns.now }
    ensures circuit { IsCircuit circuit.now }
    ensures wrote { Wrote K.output K.faults (patterns_text circuit.now patterns.now) out.old out.new
        result }
{
    circuit.keeps_shape();
    let mut writer = Writer::new(out);
    write_hold(&mut writer, circuit, patterns.held());
    write_all(&mut writer, patterns);
    writer.finish()
}

// Gives the line of the gates that are held, if there are any. There is an entry for each node.
#[tactic(auto, using(hz_write::proofs::Writers::writes_same, crate::proofs::PatternPrintLemmas::hold_some))]
fn write_hold<K: Sink>(writer: &mut Writer<'_, K>, circuit: &Circuit, held: &[Option<bool>])
    requires circuit { IsCircuit circuit.now }
    requires nodes { length held.now ≡ length circuit.now.names }
    requires none_waits { NoneWaits writer.old }
    ensures gave { Writes K.output K.faults (hold_text circuit.now (listed_from 0 held.now))
        writer.old writer.new }
    ensures none_waits { NoneWaits writer.new }
{
    if holds_any(held) {
        write_held(writer, circuit, held);
    }
}

// Whether some gate is held.
fn holds_any(held: &[Option<bool>]) -> bool
    ensures { result ≡ list_any is_some held.now }
{
    held.iter().any(|bit| bit.is_some())
}

// Gives the line of the gates that are held.
#[tactic(auto, using(hz_write::proofs::Writers::writes_then), unfolding(hz_text::specs::Printed::statement_text))]
fn write_held<K: Sink>(writer: &mut Writer<'_, K>, circuit: &Circuit, held: &[Option<bool>])
    requires circuit { IsCircuit circuit.now }
    requires nodes { length held.now ≡ length circuit.now.names }
    ensures gave { Writes K.output K.faults
        (statement_text circuit.now (codes "hold") (listed_from 0 held.now)) writer.old writer.new }
    ensures none_waits { NoneWaits writer.new }
{
    writer.text(b"hold");
    write_listed(writer, circuit, held);
    writer.end();
}

// Gives the line of each pattern.
fn write_all<K: Sink>(writer: &mut Writer<'_, K>, patterns: &Patterns)
    requires none_waits { NoneWaits writer.old }
    ensures gave { Writes K.output K.faults (flat_map pattern_text patterns.now.patterns) writer.old
        writer.new }
    ensures none_waits { NoneWaits writer.new }
{
    for number in 0..patterns.count() {
        write_pattern(writer, patterns.from(number), patterns.to(number));
    }
}

// Gives the line of a pattern.
#[tactic(auto, using(hz_write::proofs::Writers::writes_then), unfolding(crate::specs::PatternPrinted::pattern_text))]
fn write_pattern<K: Sink>(writer: &mut Writer<'_, K>, from: &[bool], to: &[bool])
    ensures gave { Writes K.output K.faults
        (pattern_text (record { from = from.now; to = to.now })) writer.old writer.new }
    ensures none_waits { NoneWaits writer.new }
{
    writer.text(b"from ");
    write_word(writer, from);
    writer.text(b" to ");
    write_word(writer, to);
    writer.end();
}

// Gives the word of bits.
fn write_word<K: Sink>(writer: &mut Writer<'_, K>, bits: &[bool])
    ensures { Writes K.output K.faults (bits_word bits.now) writer.old writer.new }
{
    if bits.is_empty() {
        writer.text(b"-");
    } else {
        write_letters(writer, bits);
    }
}

// Gives the letters of bits.
fn write_letters<K: Sink>(writer: &mut Writer<'_, K>, bits: &[bool])
    ensures { Writes K.output K.faults (map letter_of bits.now) writer.old writer.new }
{
    for bit in bits {
        writer.text(if *bit { b"1" } else { b"0" });
    }
}
