//! What is kept of the lines of a text.
//!
//! The idea. One pass over the joined lines. Names get numbers at first sight, with the lines that
//! define and use them first. A cover is kept while its rows are read; at its end it becomes its
//! gates, or it is put with the constant covers. Which of these are skipped is known only at the
//! end of the text, and so is which name is undefined: the names of their pins count as uses of
//! other covers' outputs, and not as uses of names that must be defined.
//!
//! What must stay true: `Holds` of what was read so far. Behind a fault that is noted nothing need
//! be kept that only later faults ask for: behind a row that is not as said no cover, and behind a
//! cover of too many pins or rows no gate. Beyond the most variables no gate is kept, but each is
//! counted.
//!
//! What breaks if you add a kind of line: it needs a case of `taking`, and a step that shows
//! `Holds` again.

ghost use Rattle.std.specs.Prelude.{◌≡◌, ◌<◌, ◌++◌, ◌∷◌, [], IfOk, OnOk, None, Some, false, true, ℕ, length};
ghost use Rattle.hz_line.specs.Statement.{Numbered};
ghost use Rattle.hz_netlist.specs.Names.{seen_names, on_line, AreNumbers, names_at, name_at};
ghost use Rattle.hz_blif.specs.declared.draft.Draft.{Draft as DraftOf};
ghost use Rattle.hz_blif.specs.Cover.{Cover as CoverOf, is_constant, is_too_large};
ghost use Rattle.hz_blif.specs.Draft.{Holds, HoldsClosed, MayGoOn, Read, closed, nothing_read, noting, taking, with_begun, with_cover, with_inputs, with_outputs, with_row};
ghost use Rattle.hz_blif.specs.Plain.{ArePlain, HasPlainWords, IsPlain};
ghost use Rattle.hz_blif.specs.Reading.{bytes_of, excess_of, line_by};

use crate::cover::Cover;
use crate::gates::Gates;
use crate::line::Line;
use crate::names::TextNames;
use crate::notes::{Excess, Notes, Redefinition, note};
use hz_core::{MAX_VARIABLES, Memory};
use hz_netlist::push;
use std::alloc::Global;

/// A constant cover: the line of its `.names`, and the number of its output's name.
#[derive(Clone, Copy)]
pub(crate) struct Constant {
    pub(crate) line: u32,
    pub(crate) output: u32,
}

/// What was read of a text.
#[derive(Drop)]
pub(crate) struct Draft<'t> {
    pub(crate) names: TextNames<'t>,
    /// The inputs and outputs, by the numbers of their names, in the order of the text.
    pub(crate) inputs: Vec<u32>,
    pub(crate) outputs: Vec<u32>,
    /// The gates of the covers that are not constant.
    pub(crate) gates: Gates,
    /// How many gates and pins these covers have.
    pub(crate) variables: usize,
    /// The constant covers, and the names of their pins.
    pub(crate) constants: Vec<Constant>,
    pub(crate) constant_pins: Vec<u32>,
    pub(crate) notes: Notes,
    cover: Cover<'t>,
    // Whether a cover is being read.
    is_open: bool,
}

impl<'t> Draft<'t> {
    /// Of no lines of a text.
    pub(crate) fn new(alloc: Global, text: &'t [u8]) -> Draft<'t>
        ensures { Holds nothing_read result }
    {
        Draft {
            names: TextNames::new(alloc, text),
            inputs: Vec::new(alloc),
            outputs: Vec::new(alloc),
            gates: Gates::new(alloc),
            variables: 0,
            constants: Vec::new(alloc),
            constant_pins: Vec::new(alloc),
            notes: Notes::new(),
            cover: Cover::new(alloc),
            is_open: false,
        }
    }

    // Takes room for names, where so many bytes of the text are left.
    fn make_room(&mut self, left: usize) -> Result<(), Memory>
        ensures { OnOk result ((read : Read) → Holds read self.old → Holds read self.new) }
    {
        self.names.make_room(left)?;
        Ok(())
    }

    /// Adds the next line, whose form is right; with it so many bytes of the text are left.
    pub(crate) fn add(
        &mut self,
        left: usize,
        number: u32,
        line: &Line<'_, 't>,
    ) -> Result<(), Memory>
        requires going { MayGoOn self.old }
        requires plain { HasPlainWords line.now }
        ensures { OnOk result ((read : Read) → Holds read self.old
            → Holds (taking number (line_by line.now) (noting number
            (line_by line.now) read)) self.new) }
    {
        self.make_room(left)?;
        self.note_line(number, line);
        self.take(number, line)?;
        Ok(())
    }

    // Notes a line with a long name, and a construct that is no statement.
    fn note_line(&mut self, number: u32, line: &Line<'_, 't>)
        ensures { (read : Read) → Holds read self.old
            → Holds (noting number (line_by line.now) read) self.new }
    {
        if line.has_long_name() {
            note(&mut self.notes.long_name, number);
        }
        if line.is_construct() {
            note(&mut self.notes.construct, number);
        }
    }

    // Takes what a line says.
    fn take(&mut self, number: u32, line: &Line<'_, 't>) -> Result<(), Memory>
        requires going { MayGoOn self.old }
        requires plain { HasPlainWords line.now }
        ensures { OnOk result ((read : Read) → Holds read self.old
            → Holds (taking number (line_by line.now) read) self.new) }
    {
        match line {
            Line::Blank => Ok(()),
            Line::Row(tokens) => self.add_row(number, tokens),
            Line::Inputs(names) => {
                self.close_cover()?;
                self.add_inputs(number, names)
            }
            Line::Outputs(names) => {
                self.close_cover()?;
                self.add_outputs(number, names)
            }
            Line::Names(names) => {
                self.close_cover()?;
                self.open_cover(number, names)
            }
            Line::Model(_) | Line::End(_) | Line::Construct => self.close_cover(),
        }
    }

    // Adds inputs.
    fn add_inputs(&mut self, line: u32, names: &[&'t [u8]]) -> Result<(), Memory>
        requires { ArePlain names.now }
        ensures { OnOk result ((read : Read) → Holds read self.old
            → Holds (with_inputs line (bytes_of names.now) read) self.new) }
    {
        for name in names {
            self.add_input(line, *name)?;
        }
        Ok(())
    }

    // Adds an input.
    fn add_input(&mut self, line: u32, name: &'t [u8]) -> Result<(), Memory>
        requires { IsPlain name.now }
        ensures { OnOk result ((read : Read) → Holds read self.old
            → Holds (with_inputs line (name.now ∷ []) read) self.new) }
    {
        let number = self.sight(name)?;
        push(&mut self.inputs, number)?;
        self.define(number, line);
        Ok(())
    }

    // Adds outputs.
    fn add_outputs(&mut self, line: u32, names: &[&'t [u8]]) -> Result<(), Memory>
        requires { ArePlain names.now }
        ensures { OnOk result ((read : Read) → Holds read self.old
            → Holds (with_outputs line (bytes_of names.now) read) self.new) }
    {
        for name in names {
            self.add_output(line, *name)?;
        }
        Ok(())
    }

    // Adds an output.
    fn add_output(&mut self, line: u32, name: &'t [u8]) -> Result<(), Memory>
        requires { IsPlain name.now }
        ensures { OnOk result ((read : Read) → Holds read self.old
            → Holds (with_outputs line (name.now ∷ []) read) self.new) }
    {
        let number = self.sight(name)?;
        push(&mut self.outputs, number)?;
        self.names.note_use(number, line);
        Ok(())
    }

    // The number of a name.
    fn sight(&mut self, name: &'t [u8]) -> Result<u32, Memory>
        requires { IsPlain name.now }
        ensures holds { OnOk result ((read : Read) → Holds read self.old → Holds read self.new) }
        ensures number { IfOk result (λ number. number < length self.new.names) }
        ensures name { IfOk result (λ number. name_at self.new.names number ≡ name.now) }
    {
        let number = self.names.sight(name)?;
        Ok(number)
    }

    // Notes that a line defines a name.
    fn define(&mut self, number: u32, line: u32)
        requires { number < length self.old.names }
        ensures { (read : Read) → Holds read self.old
            → Holds (record read {
              definitions = read.definitions
                  ++ record { line = line; statement = name_at self.old.names number } ∷ [];
            })
            self.new }
    {
        if let Some(first) = self.names.define(number, line) {
            note(&mut self.notes.again, Redefinition { line, first });
        }
    }

    // Begins a cover with these names: its pins, and last its output.
    fn open_cover(&mut self, line: u32, names: &[&'t [u8]]) -> Result<(), Memory>
        requires { ArePlain names.now }
        ensures { OnOk result ((read : Read) → read.current ≡ None → Holds read self.old
            → Holds (with_cover line (bytes_of names.now) read) self.new) }
    {
        let Some((output, pins)) = names.split_last() else {
            return Ok(());
        };
        self.begin_cover(line, *output)?;
        self.add_pins(pins)?;
        Ok(())
    }

    // Begins a cover with this output, without pins.
    fn begin_cover(&mut self, line: u32, output: &'t [u8]) -> Result<(), Memory>
        requires { IsPlain output.now }
        ensures { OnOk result ((read : Read) → read.current ≡ None → Holds read self.old
            → Holds (with_begun line [] output.now read) self.new) }
    {
        let number = self.sight(output)?;
        self.cover.begin(line);
        self.cover.output = number;
        self.is_open = true;
        self.define(number, line);
        Ok(())
    }

    // Adds pins to the cover that began.
    fn add_pins(&mut self, pins: &[&'t [u8]]) -> Result<(), Memory>
        requires { ArePlain pins.now }
        ensures { OnOk result ((read : Read) (cover : CoverOf) → read.current ≡ Some cover
            → cover.rows ≡ [] → Holds read self.old
            → Holds (record read {
              current = Some (record cover {
                pins = cover.pins
                    ++ bytes_of pins.now;
              });
            }) self.new) }
    {
        for pin in pins {
            self.add_pin(*pin)?;
        }
        Ok(())
    }

    // Adds a pin to the cover that began.
    fn add_pin(&mut self, pin: &'t [u8]) -> Result<(), Memory>
        requires { IsPlain pin.now }
        ensures { OnOk result ((read : Read) (cover : CoverOf) → read.current ≡ Some cover
            → cover.rows ≡ [] → Holds read self.old
            → Holds (record read {
              current = Some (record cover {
                pins = cover.pins
                    ++ pin.now ∷ [];
              });
            }) self.new) }
    {
        let number = self.sight(pin)?;
        push(&mut self.cover.pins, number)?;
        Ok(())
    }

    // Adds a row to the cover that is being read, if one is. Behind a row that is not as said none
    // is looked at.
    fn add_row(&mut self, line: u32, tokens: &[&'t [u8]]) -> Result<(), Memory>
        requires { MayGoOn self.old }
        ensures { OnOk result ((read : Read) → Holds read self.old
            → Holds (with_row line (bytes_of tokens.now) read) self.new) }
    {
        if !self.is_open {
            return Ok(());
        }
        if self.notes.wrong_row.is_some() {
            return Ok(());
        }
        if !self.cover.add_row(tokens)? {
            self.notes.wrong_row = Some(line);
        }
        Ok(())
    }

    /// Ends the cover that is being read, if one is.
    pub(crate) fn close_cover(&mut self) -> Result<(), Memory>
        requires { MayGoOn self.old }
        ensures { OnOk result ((read : Read) → Holds read self.old → Holds (closed read) self.new) }
    {
        if !self.is_open {
            return Ok(());
        }
        self.keep_cover()?;
        self.is_open = false;
        Ok(())
    }

    // Keeps the cover that was read, if a later fault may still be the least.
    fn keep_cover(&mut self) -> Result<(), Memory>
        requires going { MayGoOn self.old }
        requires reading { self.old.is_open ≡ true }
        ensures { OnOk result ((read : Read) (cover : CoverOf) → read.current ≡ Some cover
            → Holds read self.old → HoldsClosed read self.new) }
    {
        if self.notes.wrong_row.is_some() {
            return Ok(());
        }
        if self.notes.excess.is_some() {
            return Ok(());
        }
        self.keep_right_cover()?;
        Ok(())
    }

    // Keeps a cover whose rows are as said, or its count of pins or rows if those are too many.
    fn keep_right_cover(&mut self) -> Result<(), Memory>
        requires going { MayGoOn self.old }
        requires reading { self.old.is_open ≡ true }
        requires right { self.old.notes.wrong_row ≡ None }
        requires small { self.old.notes.excess ≡ None }
        ensures { OnOk result ((read : Read) (cover : CoverOf) → read.current ≡ Some cover
            → Holds read self.old → HoldsClosed read self.new) }
    {
        let line = self.cover.line;
        if let Some(count) = self.cover.excess() {
            self.notes.excess = Some(Excess { line, count });
            return Ok(());
        }
        if self.cover.is_constant() {
            self.keep_constant()?;
            return Ok(());
        }
        self.keep_gates()?;
        Ok(())
    }

    // Puts the cover with the constant ones.
    fn keep_constant(&mut self) -> Result<(), Memory>
        requires right { self.old.notes.wrong_row ≡ None }
        requires small { self.old.notes.excess ≡ None }
        ensures { OnOk result ((read : Read) (cover : CoverOf) → read.current ≡ Some cover
            → is_too_large cover ≡ false → is_constant cover ≡ true
            → Holds read self.old → HoldsClosed read self.new) }
    {
        let constant = Constant {
            line: self.cover.line,
            output: self.cover.output,
        };
        push(&mut self.constants, constant)?;
        let pins = self.cover.pins.as_slice();
        extend(&mut self.constant_pins, pins)?;
        Ok(())
    }

    // Adds the gates of the cover, and notes the uses of its pins.
    fn keep_gates(&mut self) -> Result<(), Memory>
        requires going { MayGoOn self.old }
        requires reading { self.old.is_open ≡ true }
        requires right { self.old.notes.wrong_row ≡ None }
        requires small { self.old.notes.excess ≡ None }
        requires few { excess_of (length self.old.cover.pins.items) self.old.cover.rows.count
            ≡ None }
        requires varies { (read : Read) (cover : CoverOf) → read.current ≡ Some cover
            → Holds read self.old → is_constant cover ≡ false }
        ensures { OnOk result ((read : Read) (cover : CoverOf) → read.current ≡ Some cover
            → Holds read self.old → HoldsClosed read self.new) }
    {
        let line = self.cover.line;
        let pins = self.cover.pins.as_slice();
        note_uses(&mut self.names, pins, line);
        let before = self.gates.variables();
        self.gates.add_cover(&self.cover)?;
        self.variables += self.gates.variables() - before;
        if self.variables > MAX_VARIABLES as usize {
            self.gates.clear();
            return Ok(());
        }
        Ok(())
    }
}

// Notes that a line uses names.
fn note_uses(names: &mut TextNames, numbers: &[u32], line: u32)
    requires { AreNumbers names.old numbers.now }
    ensures names { seen_names names.new ≡ seen_names names.old }
    ensures used { (read : Read) (draft : DraftOf) → draft.names ≡ names.old → Holds read draft
        → Holds (record read {
          used = read.used
              ++ on_line line (names_at names.old numbers.now);
        })
        (record draft { names = names.new }) }
{
    for number in numbers {
        names.note_use(*number, line);
    }
}

// Adds numbers to a list.
fn extend(list: &mut Vec<u32>, numbers: &[u32]) -> Result<(), Memory>
    ensures { OnOk result (list.new.items ≡ list.old.items ++ numbers.now) }
{
    match list.extend_from_slice(numbers) {
        Ok(()) => Ok(()),
        Err(_) => Err(Memory),
    }
}
