//! Names that have a number at first sight.

ghost use Rattle.std.specs.Prelude.{◌≡◌, ◌<◌, [], IfOk, OnErr, OnOk, Some, length, position};
ghost use Rattle.std.specs.Str.{bytes_eq};
ghost use Rattle.hz_netlist.specs.Names.{definer_in, first_undefined, place_in, seen_at, seen_names, undefined_line, with_definition, with_sight, with_use};
ghost use Rattle.hz_netlist.specs.Table.{seen_of};

use crate::growing::reserve_one;
use crate::key::Key;
use hz_core::{Memory, NameHashing};
use hz_lists::lesser;
use indexmap::IndexSet;
use std::alloc::Global;
use std::marker::Model;

// How many names a table has room for at first.
const FIRST_ROOM: usize = 1000;

// How many bytes of a text a name takes at least, on average. Those at its head may take fewer, as
// lines of inputs are short, but a table with room by them alone is too large for the cache: with it
// a netlist of 58,000 gates that read others far away takes 1.2 times as long.
const LEAST_BYTES: usize = 26;

/// The lines that define and use a name first.
#[derive(Clone, Copy)]
pub(crate) struct Lines {
    pub(crate) definer: Option<u32>,
    pub(crate) user: Option<u32>,
}

impl Lines {
    // The first line that uses the name, if no line defines it.
    fn undefined(&self) -> Option<u32>
        ensures { result ≡ undefined_line (seen_of [] self.now) }
    {
        match self.definer {
            None => self.user,
            Some(_) => None,
        }
    }
}

/// A name that a line defines: its number, and the first line before it that defines it, if one
/// does.
#[derive(Clone, Copy)]
pub struct Definition {
    pub number: u32,
    pub first: Option<u32>,
}

/// The names of a text, in the order of first sight, each with the lines that define and use it
/// first. The number of a name is its place.
///
/// Names are hashed with a digest of the whole text as the key. Other names are another text, so
/// names that were chosen to collide without the key are as good as others. Only who makes a text
/// for a given digest, around names that collide by it, could make the table slow.
#[derive(Drop)]
pub struct NameTable<'a> {
    names: IndexSet<Key<'a>, NameHashing>,
    lines: Vec<Lines>,
    text_bytes: usize,
}

impl<'a> Model for NameTable<'a> {
    ghost use Rattle.hz_netlist.specs.Names.{Names};

    ghost Value = { Names };

    ghost use Rattle.hz_netlist.specs.Table.{names_of, HoldsNames};

    ghost view = { names_of };

    ghost invariant = { HoldsNames };
}

impl<'a> NameTable<'a> {
    /// The table of a text, without names so far.
    pub fn new(alloc: Global, text: &'a [u8]) -> NameTable<'a>
        ensures { result ≡ [] }
    {
        NameTable {
            names: IndexSet::with_hasher(alloc, NameHashing::of_text(text)),
            lines: Vec::new(alloc),
            text_bytes: text.len(),
        }
    }

    /// How many names there are.
    pub fn len(&self) -> usize
        ensures { result ≡ length self.now }
    {
        self.names.len()
    }

    /// How the names are hashed.
    pub fn hashing(&self) -> NameHashing {
        *self.names.hasher()
    }

    /// The name with this number.
    pub fn name(&self, number: u32) -> &'a [u8]
        requires { number < length self.now }
        ensures { result.now ≡ (seen_at self.now number).name }
    {
        self.names.as_slice()[number as usize].bytes()
    }

    /// The first line that uses the name with this number.
    pub fn user(&self, number: u32) -> Option<u32>
        requires { number < length self.now }
        ensures { result ≡ (seen_at self.now number).user }
    {
        self.lines[number as usize].user
    }

    /// The number of a name; a new name comes last.
    #[inline(always)]
    pub fn sight(&mut self, name: &'a [u8]) -> Result<u32, Memory>
        ensures seen { OnOk result (self.new ≡ with_sight self.old name.now) }
        ensures number { IfOk result (λ number. position (bytes_eq name.now)
            (seen_names self.new) ≡ Some number) }
        ensures err { OnErr result (self.new ≡ self.old) }
    {
        let Ok(_) = u32::try_from(self.names.len()) else {
            return Err(Memory);
        };
        reserve_one(&mut self.lines)?;
        let Ok((place, is_new)) = self.names.insert_full(Key::new(name)) else {
            return Err(Memory);
        };
        if is_new {
            self.lines.push_reserved(Lines {
                definer: None,
                user: None,
            });
        }
        Ok(place as u32)
    }

    /// Notes that a line defines a name; the first line that did before, if one did.
    pub fn define(&mut self, number: u32, line: u32) -> Option<u32>
        requires { number < length self.old }
        ensures before { result ≡ (seen_at self.old number).definer }
        ensures defined { self.new ≡ with_definition self.old (seen_at self.old number).name line }
    {
        let lines = self.lines[number as usize];
        self.lines[number as usize] = Lines {
            definer: Some(lines.definer.unwrap_or(line)),
            ..lines
        };
        lines.definer
    }

    /// Notes that a line uses a name.
    pub fn note_use(&mut self, number: u32, line: u32)
        requires { number < length self.old }
        ensures { self.new ≡ with_use self.old (seen_at self.old number).name line }
    {
        let lines = self.lines[number as usize];
        self.lines[number as usize] = Lines {
            user: Some(lines.user.unwrap_or(line)),
            ..lines
        };
    }

    /// Notes that a line defines a name, with the number of the name, and the first line that did
    /// before, if one did.
    pub fn define_name(&mut self, name: &'a [u8], line: u32) -> Result<Definition, Memory>
        ensures names { OnOk result (self.new ≡ with_definition self.old name.now line) }
        ensures number { IfOk result (λ one. place_in self.new name.now ≡ Some one.number) }
        ensures first { IfOk result (λ one. one.first ≡ definer_in self.old name.now) }
        ensures err { OnErr result (self.new ≡ self.old) }
    {
        let number = self.sight(name)?;
        let first = self.define(number, line);
        Ok(Definition { number, first })
    }

    /// Notes that a line uses a name; the number of the name.
    #[inline(always)]
    pub fn use_name(&mut self, name: &'a [u8], line: u32) -> Result<u32, Memory>
        ensures names { OnOk result (self.new ≡ with_use self.old name.now line) }
        ensures number { IfOk result (λ number. place_in self.new name.now ≡ Some number) }
        ensures err { OnErr result (self.new ≡ self.old) }
    {
        let number = self.sight(name)?;
        self.note_use(number, line);
        Ok(number)
    }

    /// The first line that uses a name which no line defines.
    #[tactic(auto, using(crate::proofs::NameTableLemmas::min_assoc, crate::proofs::NameTableLemmas::min_none))]
    pub fn first_undefined(&self) -> Option<u32>
        ensures { result ≡ first_undefined self.now }
    {
        let mut first = None;
        for lines in &self.lines {
            first = lesser(first, lines.undefined());
        }
        first
    }

    /// Takes room for the names of the rest of the text, so many bytes, if the table is full: as
    /// many to a byte as were found in what was read so far, but no more than names take at least.
    /// So a table of a million names is made anew once or twice, and not twenty times.
    #[inline(always)]
    pub fn make_room(&mut self, left: usize) -> Result<(), Memory>
        ensures { self.new ≡ self.old }
    {
        let names = self.names.len();
        if names < self.names.capacity() {
            return Ok(());
        }
        let read = self.text_bytes.saturating_sub(left);
        let more = names.saturating_mul(left) / read.max(1);
        self.reserve(more.min(left / LEAST_BYTES).max(FIRST_ROOM))
    }

    // Makes room for that many more names, and for the lines of all that then have room.
    #[cold]
    fn reserve(&mut self, more: usize) -> Result<(), Memory>
        ensures { self.new ≡ self.old }
    {
        self.names.reserve(more)?;
        let room = self.names.capacity() - self.names.len();
        self.lines.reserve(room)?;
        Ok(())
    }
}
