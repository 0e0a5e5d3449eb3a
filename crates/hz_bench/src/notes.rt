// What is noted of statements while they are read.

ghost use Rattle.std.specs.Prelude.{◌≡◌, ◌+◌, ◌<◌, ◌^◌, None, Some};
ghost use Rattle.hz_bench.specs.Entry.{statement_of_entry, numbered_of, numbered_output};
ghost use Rattle.hz_bench.specs.FaultNotes.{notes_with, no_notes, first_of, wrong_or};
ghost use Rattle.hz_bench.specs.Netlist.{element_of};
ghost use Rattle.hz_netlist.specs.Element.{element_variables};

use crate::entry::{Entry, OutputLine};
use crate::forms::Form;
use crate::statement::is_long;

/// A gate with a number of pins that its kind does not allow, or a flip-flop that does not read one
/// name.
#[derive(Clone, Copy, Debug)]
pub struct WrongPins {
    pub line: u32,
    pub count: u32,
}

/// A line that defines a name which an earlier line defines, and the first line that does.
#[derive(Clone, Copy, Debug)]
pub struct Redefinition {
    pub line: u32,
    pub first: u32,
}

/// What is known of the statements of a text once they are read: the first line with each fault of
/// a single statement, and how many inputs, flip-flops, gates and pins of gates there are in all.
#[derive(Clone, Copy, Debug)]
pub struct Notes {
    pub long_name: Option<u32>,
    pub unknown_kind: Option<u32>,
    pub wrong_pins: Option<WrongPins>,
    pub variables: u32,
}

impl Notes {
    // Of no statement.
    pub(crate) fn new() -> Notes
        ensures { result ≡ no_notes }
    {
        Notes {
            long_name: None,
            unknown_kind: None,
            wrong_pins: None,
            variables: 0,
        }
    }

    // Notes one input, flip-flop or gate more.
    pub(crate) fn add(&mut self, entry: &Entry)
        requires { self.old.variables
            + element_variables (element_of (statement_of_entry entry.now)) < 2 ^ 32 }
        ensures { self.new ≡ notes_with self.old (numbered_of entry.now) }
    {
        let form = entry.form;
        note_line(&mut self.long_name, entry.long, entry.line);
        note_line(&mut self.unknown_kind, form.is_unknown(), entry.line);
        note_pins(&mut self.wrong_pins, entry);
        match form {
            Form::Input | Form::FlipFlop => self.variables += 1,
            Form::Gate(_) => self.variables += 1 + entry.pins as u32,
        }
    }

    // Notes one output more, which brings no variables and has nothing but its name.
    pub(crate) fn add_output(&mut self, output: &OutputLine)
        ensures { self.new ≡ notes_with self.old (numbered_output output.now) }
    {
        note_line(&mut self.long_name, is_long(output.name), output.line);
    }
}

// Notes the line, if it is the first to be noted.
fn note_line(first: &mut Option<u32>, here: bool, line: u32)
    ensures { first.new ≡ first_of first.old here line }
{
    if here && first.is_none() {
        *first = Some(line);
    }
}

// Notes the pins of an entry, if they are the first that are wrong.
fn note_pins(first: &mut Option<WrongPins>, entry: &Entry)
    ensures { first.new ≡ wrong_or first.old (numbered_of entry.now) }
{
    if entry.form.refuses_pins(entry.pins) && first.is_none() {
        *first = Some(WrongPins {
            line: entry.line,
            count: entry.pins as u32,
        });
    }
}
