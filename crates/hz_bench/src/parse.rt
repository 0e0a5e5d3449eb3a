//! The statements of a text.
//!
//! The idea. One pass over the lines. Of each statement the faults that its own line shows are
//! noted, the first line of each. Each name gets its number at first sight, with the first lines
//! that define and use it, so after the pass the table tells the first name that no line defines.
//! Inputs, flip-flops, gates and outputs are kept by the numbers of their names, each kind by itself:
//! they are the draft of the circuit. Beyond the most variables there will be no circuit, so no node
//! is kept.
//!
//! What must stay true: `AddsStatement` for each statement, and `AreGathered` for those so far.
//!
//! What breaks if you add a fault: one of a single statement needs a note; one whose number lies
//! between two others needs its place in `fault_in`.

ghost use Rattle.std.specs.Prelude.{◌≡◌, ◌+◌, ◌<◌, ◌≤◌, ◌^◌, ◌++◌, ◌∷◌, [], length, map, MatchResult, OnOk, true};
ghost use Rattle.hz_line.specs.Line.{most_text_bytes};
ghost use Rattle.hz_line.specs.Token.{tokens_of};
ghost use Rattle.hz_bench.specs.Entry.{statement_of_entry, numbered_line, numbered_of, numbered_output};
ghost use Rattle.hz_bench.specs.Head.{AreKept, HasWords};
ghost use Rattle.hz_bench.specs.Names.{are_names, places, source_number, told, with_uses};
ghost use Rattle.hz_bench.specs.Pass.{IsParsed, IsParseFault};
ghost use Rattle.hz_bench.specs.ReaderState.{AddsStatement, IsNothingRead, KeepsNode, redefinition_with};
ghost use Rattle.hz_bench.specs.Statement.{are_punctuated, words_in};
ghost use Rattle.hz_netlist.specs.declared.draft.Role.TheVariants.{Output};
ghost use Rattle.hz_netlist.specs.Element.{element_variables};
ghost use Rattle.hz_bench.specs.Netlist.{element_of, kind_of};

use crate::entry::{Entry, Line, OutputLine};
use crate::fault::BenchFault;
use crate::forms::Form;
use crate::notes::{Notes, Redefinition};
use crate::statement::{punctuated_word, statement_of};
use hz_core::{Kind, MAX_PINS, MAX_VARIABLES, Memory};
use hz_line::{is_blank_line, split_line};
use hz_netlist::{Gate, NameTable, Role, Source, push};
use std::alloc::Global;

/// What was read of the statements of a text.
#[derive(Drop)]
pub struct Statements<'a> {
    /// The names of the text.
    pub names: NameTable<'a>,
    /// The inputs and the flip-flops, by the numbers of their names, and the gates, each in the
    /// order of the text, up to the most variables that a circuit has.
    pub inputs: Vec<u32>,
    pub cuts: Vec<u32>,
    pub gates: Vec<Gate>,
    /// What the flip-flops read, and what the pins of the gates read, one after the other.
    pub cut_sources: Vec<Source>,
    pub sources: Vec<Source>,
    /// The numbers of the outputs' names, in the order of the text.
    pub outputs: Vec<u32>,
    /// What was noted of all statements.
    pub notes: Notes,
    /// The first line that defines a name again.
    pub again: Option<Redefinition>,
}

/// The statements of a text, or the first line that is malformed.
pub(crate) fn parse<'a>(alloc: Global, text: &'a [u8]) -> Result<Statements<'a>, BenchFault>
    requires { length text.now ≤ most_text_bytes }
    ensures { MatchResult result
        (λ statements. IsParsed text.now statements)
        (λ fault. IsParseFault text.now fault) }
{
    let Ok(mut words) = Vec::with_capacity(alloc, MAX_PINS) else {
        return Err(BenchFault::Memory);
    };
    let mut statements = Statements::new(alloc, text);
    let mut line = 0u32;
    let mut left = Some(text);
    while let Some(rest) = left {
        let cut = split_line(rest);
        line += 1;
        left = cut.rest;
        let Ok(()) = statements.names.make_room(rest.len()) else {
            return Err(BenchFault::Memory);
        };
        match statement_of(line, cut.line, &mut words) {
            Some(statement) => match statements.add(statement, words.as_slice()) {
                Ok(()) => {}
                Err(Memory) => return Err(BenchFault::Memory),
            },
            None => {
                if !is_blank_line(cut.line) {
                    return Err(BenchFault::Form { line });
                }
            }
        }
    }
    Ok(statements)
}

impl<'a> Statements<'a> {
    // Those of no text.
    fn new(alloc: Global, text: &'a [u8]) -> Statements<'a>
        ensures { IsNothingRead result }
    {
        Statements {
            names: NameTable::new(alloc, text),
            inputs: Vec::new(alloc),
            cuts: Vec::new(alloc),
            gates: Vec::new(alloc),
            cut_sources: Vec::new(alloc),
            sources: Vec::new(alloc),
            outputs: Vec::new(alloc),
            notes: Notes::new(),
            again: None,
        }
    }

    // Adds the next statement of the text, of whose sources these words were kept.
    fn add(&mut self, line: Line<'a>, words: &[&'a [u8]]) -> Result<(), Memory>
        requires words { HasWords line words.now }
        requires variables { self.old.notes.variables
            + element_variables (element_of (numbered_line line).statement) < 2 ^ 32 }
        ensures { OnOk result (AddsStatement self.old (numbered_line line.entry) self.new) }
    {
        match line {
            Line::Node(entry) => self.add_node(entry, words),
            Line::Output(output) => self.add_output(output),
        }
    }

    // Adds an input, a flip-flop or a gate.
    fn add_node(&mut self, entry: Entry<'a>, words: &[&'a [u8]]) -> Result<(), Memory>
        requires words { AreKept words.now entry.pins entry.sources.now }
        requires variables { self.old.notes.variables
            + element_variables (element_of (statement_of_entry entry)) < 2 ^ 32 }
        ensures { OnOk result (AddsStatement self.old (numbered_of entry.entry) self.new) }
    {
        self.notes.add(&entry);
        let definition = self.names.define_name(entry.name, entry.line)?;
        note_again(&mut self.again, entry.line, definition.first);
        self.keep(&entry, definition.number, words)?;
        Ok(())
    }

    // Keeps a node, which defines the name with this number, and notes what it reads.
    #[inline(always)]
    fn keep(&mut self, entry: &Entry<'a>, number: u32, words: &[&'a [u8]]) -> Result<(), Memory>
        requires { AreKept words.now entry.now.pins entry.now.sources.now }
        ensures { OnOk result (KeepsNode self.old entry.now.form entry.now.line entry.now.pins
            (words_in entry.now.sources.now) number self.new) }
    {
        if self.notes.variables > MAX_VARIABLES {
            self.cut_sources.clear();
            self.sources.clear();
            return use_sources(&mut self.names, entry, words, &mut self.sources);
        }
        match entry.form {
            Form::Input => push(&mut self.inputs, number),
            Form::FlipFlop => {
                push(&mut self.cuts, number)?;
                use_sources(&mut self.names, entry, words, &mut self.cut_sources)
            }
            Form::Gate(kind) => {
                let gate = gate_of(kind, number, entry.pins);
                push(&mut self.gates, gate)?;
                use_sources(&mut self.names, entry, words, &mut self.sources)
            }
        }
    }

    // Adds an output.
    fn add_output(&mut self, output: OutputLine<'a>) -> Result<(), Memory>
        ensures { OnOk result (AddsStatement self.old (numbered_output output.entry) self.new) }
    {
        self.notes.add_output(&output);
        let number = self.names.use_name(output.name, output.line)?;
        push(&mut self.outputs, number)
    }
}

// A gate that defines the name with this number.
fn gate_of(kind: Option<Kind>, number: u32, pins: usize) -> Gate
    ensures { result ≡ record { role = Output; kind = kind_of kind; output = number; pins = pins } }
{
    Gate {
        role: Role::Output,
        kind: kind.unwrap_or(Kind::And),
        output: number,
        pins,
    }
}

// Notes that a line defines a name which an earlier line defines, if it does, and if none is noted.
fn note_again(again: &mut Option<Redefinition>, line: u32, first: Option<u32>)
    ensures { again.new ≡ redefinition_with again.old line first }
{
    if again.is_some() {
        return;
    }
    if let Some(first) = first {
        *again = Some(Redefinition { line, first });
    }
}

// Notes that a line uses the names that a node reads, and adds them to the sources. If not all of
// them were kept, they are read again.
#[inline(always)]
fn use_sources<'a>(
    names: &mut NameTable<'a>,
    entry: &Entry<'a>,
    words: &[&'a [u8]],
    sources: &mut Vec<Source>,
) -> Result<(), Memory>
    requires { AreKept words.now entry.now.pins entry.now.sources.now }
    ensures names { OnOk result (names.new
        ≡ with_uses names.old entry.now.line (words_in entry.now.sources.now)) }
    ensures numbers { OnOk result (told (map source_number sources.new.items)
        ≡ told (map source_number sources.old.items)
        ++ places names.new (words_in entry.now.sources.now)) }
    ensures named { OnOk result (are_names sources.old.items ≡ true
        → are_names sources.new.items ≡ true) }
{
    if words.len() == entry.pins {
        use_words(names, words, entry.line, sources)
    } else {
        use_names(names, entry.sources, entry.line, sources)
    }
}

// Notes that a line uses these names, and adds them to the sources.
fn use_words<'a>(
    names: &mut NameTable<'a>,
    words: &[&'a [u8]],
    line: u32,
    sources: &mut Vec<Source>,
) -> Result<(), Memory>
    ensures names { OnOk result (names.new
        ≡ with_uses names.old line (map (λ word. word.now) words.now)) }
    ensures numbers { OnOk result (told (map source_number sources.new.items)
        ≡ told (map source_number sources.old.items)
        ++ places names.new (map (λ word. word.now) words.now)) }
    ensures named { OnOk result (are_names sources.old.items ≡ true
        → are_names sources.new.items ≡ true) }
{
    for word in words {
        let number = names.use_name(*word, line)?;
        push(sources, Source::Name(number))?;
    }
    Ok(())
}

// Notes that a line uses the names in a part of it, and adds them to the sources.
fn use_names<'a>(
    names: &mut NameTable<'a>,
    part: &'a [u8],
    line: u32,
    sources: &mut Vec<Source>,
) -> Result<(), Memory>
    requires { are_punctuated (tokens_of part.now) ≡ true }
    ensures names { OnOk result (names.new ≡ with_uses names.old line (words_in part.now)) }
    ensures numbers { OnOk result (told (map source_number sources.new.items)
        ≡ told (map source_number sources.old.items) ++ places names.new (words_in part.now)) }
    ensures named { OnOk result (are_names sources.old.items ≡ true
        → are_names sources.new.items ≡ true) }
{
    let mut left = part;
    while let Some(source) = punctuated_word(left) {
        let number = names.use_name(source.word, line)?;
        push(sources, Source::Name(number))?;
        left = source.rest;
    }
    Ok(())
}
