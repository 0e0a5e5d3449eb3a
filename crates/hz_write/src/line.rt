//! A line that is composed piece by piece.
ghost use Rattle.std.specs.Prelude.{◌≡◌, ◌+◌, ◌-◌, ◌≤◌, [], ◌++◌, length, take, OnErr};
ghost use Rattle.hz_write.specs.Writes.{newline, Wrote, WroteBuffered};

use hz_outside::{PutFault, Sink, copy_short};
use std::marker::Model;

/// How many bytes of a line one put carries at most.
pub const BUFFER_SIZE: usize = 4096;

/// The bytes of a line that wait for its end, or for a full buffer. It is seen as these bytes.
#[derive(Drop)]
pub struct Line {
    buffer: [u8; BUFFER_SIZE],
    len: usize,
}

impl Model for Line {
    ghost use Rattle.std.specs.Prelude.{List, ℕ, ◌≤◌, take};
    ghost use Rattle.hz_write.specs.declared.line.TheConstants.{BUFFER_SIZE};

    ghost Value = { List ℕ };

    ghost view = { λ line. take line.len line.buffer };

    ghost invariant = { λ line. line.len ≤ BUFFER_SIZE };
}

impl Line {
    /// A line that is empty so far.
    pub fn new() -> Line
        ensures { result ≡ [] }
    {
        Line {
            buffer: [0; BUFFER_SIZE],
            len: 0,
        }
    }

    /// Adds a piece to the line, and puts what waits each time that the buffer is full and more comes.
    ///
    /// After a refusal the line is dropped: nothing waits.
    #[inline(never)]
    pub fn add<K: Sink>(&mut self, out: &mut K, piece: &[u8]) -> Result<(), PutFault>
        ensures added { WroteBuffered K.output K.faults (self.old ++ piece.now) out.old out.new
            self.new result }
        ensures dropped { OnErr result (self.new ≡ []) }
    {
        let mut rest = piece;
        while self.room() < rest.len() {
            let (front, back) = rest.split_at(self.room());
            self.push(front);
            self.put_waiting(out)?;
            rest = back;
        }
        self.push(rest);
        Ok(())
    }

    /// Ends the line by a line feed and puts what waits. Afterwards nothing waits, also after a refusal.
    pub fn end<K: Sink>(&mut self, out: &mut K) -> Result<(), PutFault>
        ensures wrote { Wrote K.output K.faults (self.old ++ newline) out.old out.new result }
        ensures emptied { self.new ≡ [] }
    {
        if self.room() > 0 {
            self.push(b"\n");
        } else {
            self.add(out, b"\n")?;
        }
        self.put_waiting(out)
    }

    /// Ends the line by its last bytes and puts what waits. If nothing waits, they are put without a copy. Afterwards nothing waits,
    /// also after a refusal.
    pub(crate) fn end_by<K: Sink>(&mut self, out: &mut K, last: &[u8]) -> Result<(), PutFault>
        ensures wrote { Wrote K.output K.faults (self.old ++ last.now) out.old out.new result }
        ensures emptied { self.new ≡ [] }
    {
        if self.len == 0 && !last.is_empty() && last.len() <= BUFFER_SIZE {
            return out.put(last);
        }
        self.add(out, last)?;
        self.put_waiting(out)
    }

    /// How many bytes fit until the buffer is full.
    pub(crate) fn room(&self) -> usize
        ensures room { result + length self.now ≡ BUFFER_SIZE }
    {
        BUFFER_SIZE - self.len
    }

    /// Lets more bytes wait.
    pub(crate) fn push(&mut self, piece: &[u8])
        requires { length self.old + length piece.now ≤ BUFFER_SIZE }
        ensures { self.new ≡ self.old ++ piece.now }
    {
        let end = self.len + piece.len();
        self.buffer[self.len..end].copy_from_slice(piece);
        self.len = end;
    }

    /// Lets three more pieces wait, which are short as a rule.
    #[inline(always)]
    pub(crate) fn push_three(&mut self, first: &[u8], second: &[u8], third: &[u8])
        requires { length self.old + (length first.now + length second.now + length third.now)
            ≤ BUFFER_SIZE }
        ensures { self.new ≡ self.old ++ (first.now ++ second.now ++ third.now) }
    {
        let middle = write_short(&mut self.buffer, self.len, first);
        let last = write_short(&mut self.buffer, middle, second);
        self.len = write_short(&mut self.buffer, last, third);
    }

    /// Puts what waits, if anything does.
    #[inline(always)]
    pub(crate) fn put_waiting<K: Sink>(&mut self, out: &mut K) -> Result<(), PutFault>
        ensures wrote { Wrote K.output K.faults self.old out.old out.new result }
        ensures emptied { self.new ≡ [] }
    {
        let len = self.len;
        self.len = 0;
        if len == 0 {
            return Ok(());
        }
        out.put(&self.buffer[..len])
    }
}

// Writes a piece, which is short as a rule, over the bytes from a place on, and says where it ends.
#[inline(always)]
fn write_short(buffer: &mut [u8], begin: usize, piece: &[u8]) -> usize
    requires { begin + length piece.now ≤ length buffer.old }
    ensures end { result ≡ begin + length piece.now }
    ensures long { length buffer.new ≡ length buffer.old }
    ensures front { take result buffer.new ≡ take begin buffer.old ++ piece.now }
{
    let end = begin + piece.len();
    copy_short(&mut buffer[begin..end], piece);
    end
}
