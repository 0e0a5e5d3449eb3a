// The names of a text, which have no '\', so that no gate of a cover is taken for one of them.

ghost use Rattle.std.specs.Prelude.{◌≡◌, ◌<◌, [], IfOk, OnErr, OnOk, Some, length, position};
ghost use Rattle.std.specs.List.{AllByRecursion};
ghost use Rattle.std.specs.Str.{bytes_eq};
ghost use Rattle.hz_netlist.specs.Names.{first_undefined, seen_at, seen_names, with_definition, with_sight, with_use};
ghost use Rattle.hz_blif.specs.Plain.{IsPlain};

use hz_core::Memory;
use hz_netlist::NameTable;
use std::alloc::Global;
use std::marker::Model;

/// The names of a text, each with its number and the lines that define and use it first. None has a
/// `\`.
#[derive(Drop)]
pub(crate) struct TextNames<'t> {
    table: NameTable<'t>,
}

impl<'t> Model for TextNames<'t> {
    ghost use Rattle.hz_netlist.specs.Names.{Names, seen_names};
    ghost use Rattle.std.specs.List.{AllByRecursion};
    ghost use Rattle.hz_blif.specs.Plain.{IsPlain};

    ghost Value = { Names };

    ghost view = { λ names. names.table };

    ghost invariant = { λ names. AllByRecursion IsPlain (seen_names names.table) };
}

impl<'t> TextNames<'t> {
    /// The names of a text, none so far.
    pub(crate) fn new(alloc: Global, text: &'t [u8]) -> TextNames<'t>
        ensures { result ≡ [] }
    {
        TextNames {
            table: NameTable::new(alloc, text),
        }
    }

    /// How many names there are.
    pub(crate) fn len(&self) -> usize
        ensures { result ≡ length self.now }
    {
        self.table.len()
    }

    /// The table of the names.
    pub(crate) fn table(&self) -> &NameTable<'t>
        ensures table { result.now ≡ self.now }
        ensures plain { AllByRecursion IsPlain (seen_names self.now) }
    {
        &self.table
    }

    /// The first line that uses the name with this number.
    pub(crate) fn user(&self, number: u32) -> Option<u32>
        requires { number < length self.now }
        ensures { result ≡ (seen_at self.now number).user }
    {
        self.table.user(number)
    }

    /// The number of a name; a new name comes last.
    pub(crate) fn sight(&mut self, name: &'t [u8]) -> Result<u32, Memory>
        requires { IsPlain name.now }
        ensures seen { OnOk result (self.new ≡ with_sight self.old name.now) }
        ensures number { IfOk result (λ number. position (bytes_eq name.now)
            (seen_names self.new) ≡ Some number) }
        ensures err { OnErr result (self.new ≡ self.old) }
    {
        self.table.sight(name)
    }

    /// Notes that a line defines a name; the first line that did before, if one did.
    pub(crate) fn define(&mut self, number: u32, line: u32) -> Option<u32>
        requires { number < length self.old }
        ensures before { result ≡ (seen_at self.old number).definer }
        ensures defined { self.new ≡ with_definition self.old (seen_at self.old number).name line }
    {
        self.table.define(number, line)
    }

    /// Notes that a line uses a name.
    pub(crate) fn note_use(&mut self, number: u32, line: u32)
        requires { number < length self.old }
        ensures { self.new ≡ with_use self.old (seen_at self.old number).name line }
    {
        self.table.note_use(number, line)
    }

    /// The first line that uses a name which no line defines.
    pub(crate) fn first_undefined(&self) -> Option<u32>
        ensures { result ≡ first_undefined self.now }
    {
        self.table.first_undefined()
    }

    /// Takes room for the names of the rest of the text, so many bytes.
    pub(crate) fn make_room(&mut self, left: usize) -> Result<(), Memory>
        ensures { self.new ≡ self.old }
    {
        self.table.make_room(left)
    }
}
