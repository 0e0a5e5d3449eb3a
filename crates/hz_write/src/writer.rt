//! A writer of lines, which keeps its first fault.
ghost use Rattle.std.specs.Prelude.{true, ◌≡◌, [], ◌++◌, map, decimal};
ghost use Rattle.std.specs.List.{flat_map};
ghost use Rattle.hz_write.specs.Pieces.{piece_text};
ghost use Rattle.hz_write.specs.Writer.{Begins, Writes, NoneWaits, Finishes, has_failed};
ghost use Rattle.hz_write.specs.Writes.{newline, line_of, Wrote};

use super::line::Line;
use super::pieces::Piece;
use hz_outside::{PutFault, Sink};
use itoa::Buffer;

/// A writer of lines over a sink, which keeps the first fault, and puts nothing more from then on.
///
/// A line is put at its end, or buffer by buffer if it is longer than one. The writer is used up by
/// [`finish`](Writer::finish), which returns the fault. During long work [`has_failed`](Writer::has_failed) says whether there is one.
pub struct Writer<'k, K: Sink> {
    out: &'k mut K,
    line: Line,
    fault: Option<PutFault>,
}

impl<'k, K: Sink> Writer<'k, K> {
    /// A writer to which nothing was given so far.
    pub fn new(out: &'k mut K) -> Writer<'k, K>
        ensures sink { result.out.ghost_name ≡ out.entry.ghost_name }
        ensures begins { Begins out.old result }
    {
        Writer {
            out,
            line: Line::new(),
            fault: None,
        }
    }

    /// Gives bytes of one line.
    pub fn text(&mut self, text: &[u8])
        ensures { Writes K.output K.faults text.now self.old self.new }
    {
        if text.len() <= self.line.room() {
            self.line.push(text);
        } else {
            self.overflow(text);
        }
    }

    // Gives bytes of one line for which the buffer has no room. Few pieces are so: kept apart, `text` is short enough to be inlined.
    #[cold]
    #[inline(never)]
    fn overflow(&mut self, text: &[u8])
        ensures { Writes K.output K.faults text.now self.old self.new }
    {
        if self.fault.is_some() {
            return;
        }
        if let Err(fault) = self.line.add(self.out, text) {
            self.fault = Some(fault);
        }
    }

    // Gives a number in decimal digits.
    fn number(&mut self, number: u32)
        ensures { Writes K.output K.faults (decimal number) self.old self.new }
    {
        let mut digits = Buffer::new();
        self.text(digits.format(number).as_bytes());
    }

    // Gives a number of items in decimal digits.
    fn count(&mut self, count: usize)
        ensures { Writes K.output K.faults (decimal count) self.old self.new }
    {
        let mut digits = Buffer::new();
        self.text(digits.format(count).as_bytes());
    }

    // Gives a number of 64 bits in decimal digits.
    fn long(&mut self, value: u64)
        ensures { Writes K.output K.faults (decimal value) self.old self.new }
    {
        let mut digits = Buffer::new();
        self.text(digits.format(value).as_bytes());
    }

    // Gives a piece.
    fn piece(&mut self, piece: Piece<'_>)
        ensures { Writes K.output K.faults (piece_text piece.entry) self.old self.new }
    {
        match piece {
            Piece::Text(text) => self.text(text),
            Piece::Number(number) => self.number(number),
            Piece::Count(count) => self.count(count),
            Piece::Long(value) => self.long(value),
        }
    }

    /// Gives pieces of one line, one after the other.
    pub fn add(&mut self, pieces: &[Piece<'_>])
        ensures { Writes K.output K.faults (flat_map piece_text pieces.now) self.old self.new }
    {
        for piece in pieces {
            self.piece(*piece);
        }
    }

    /// Gives pieces, and ends the line.
    pub fn line(&mut self, pieces: &[Piece<'_>])
        ensures gave { Writes K.output K.faults (flat_map piece_text pieces.now ++ newline) self.old
            self.new }
        ensures none_waits { NoneWaits self.new }
    {
        self.add(pieces);
        self.end();
    }

    /// Ends the line, and puts what waits.
    pub fn end(&mut self)
        ensures gave { Writes K.output K.faults newline self.old self.new }
        ensures none_waits { NoneWaits self.new }
    {
        if self.fault.is_some() {
            return;
        }
        if let Err(fault) = self.line.end(self.out) {
            self.fault = Some(fault);
        }
    }

    /// Gives the last bytes of a line, its line feed among them, and puts what waits. If nothing waits, they are put as they are.
    pub fn end_by(&mut self, last: &[u8])
        ensures gave { Writes K.output K.faults last.now self.old self.new }
        ensures none_waits { NoneWaits self.new }
    {
        if self.fault.is_some() {
            return;
        }
        if let Err(fault) = self.line.end_by(self.out, last) {
            self.fault = Some(fault);
        }
    }

    /// Gives three texts of one line, which are short as a rule. This costs less than a call for each.
    #[inline(always)]
    pub fn three(&mut self, first: &[u8], second: &[u8], third: &[u8])
        ensures { Writes K.output K.faults
            (first.now ++ second.now ++ third.now) self.old self.new }
    {
        if (first.len() + third.len()).saturating_add(second.len()) <= self.line.room() {
            self.line.push_three(first, second, third);
        } else {
            self.three_beyond(first, second, third);
        }
    }

    // Gives three texts of one line for which the buffer has no room.
    #[cold]
    #[inline(never)]
    fn three_beyond(&mut self, first: &[u8], second: &[u8], third: &[u8])
        ensures { Writes K.output K.faults
            (first.now ++ second.now ++ third.now) self.old self.new }
    {
        self.text(first);
        self.text(second);
        self.text(third);
    }

    /// Gives the last three texts of a line, its line feed among them, and puts what waits.
    #[inline(always)]
    pub fn end_by_three(&mut self, first: &[u8], second: &[u8], third: &[u8])
        ensures gave { Writes K.output K.faults (first.now ++ second.now ++ third.now) self.old
            self.new }
        ensures none_waits { NoneWaits self.new }
    {
        self.three(first, second, third);
        self.put_waiting();
    }

    // Puts what waits.
    #[inline(always)]
    fn put_waiting(&mut self)
        ensures gave { Writes K.output K.faults [] self.old self.new }
        ensures none_waits { NoneWaits self.new }
    {
        if self.fault.is_some() {
            return;
        }
        if let Err(fault) = self.line.put_waiting(self.out) {
            self.fault = Some(fault);
        }
    }

    /// Whether a put failed. From then on nothing is put.
    pub fn has_failed(&self) -> bool
        ensures { result ≡ has_failed self.now }
    {
        self.fault.is_some()
    }

    /// Gives up: nothing more is put, as after a put for which memory was too short. So a caller says that its own work ran out of memory.
    pub fn give_up(&mut self)
        ensures gave { Writes K.output K.faults [] self.old self.new }
        ensures failed { has_failed self.new ≡ true }
    {
        if self.fault.is_some() {
            return;
        }
        self.fault = Some(PutFault::Memory);
    }

    /// Puts what waits, and returns the first fault.
    pub fn finish(self) -> Result<(), PutFault>
        ensures { Finishes K.output K.faults self.entry self.exit.0.now result }
    {
        let Writer {
            out,
            mut line,
            fault,
        } = self;
        match fault {
            Some(fault) => Err(fault),
            None => line.put_waiting(out),
        }
    }
}

/// Writes a text that is one line, that of these pieces.
pub fn put_line<K: Sink>(out: &mut K, pieces: &[Piece<'_>]) -> Result<(), PutFault>
    ensures { Wrote K.output K.faults (line_of (map piece_text pieces.now)) out.old out.new result }
{
    let mut writer = Writer::new(out);
    writer.line(pieces);
    writer.finish()
}
