//! Reading patterns from a text that comes part by part.

ghost use Rattle.std.specs.Prelude.{◌≡◌, ◌≤◌, ◌⊎◌, ◌++◌, [], length, IfOk, IfErr, OnOk, IsErrOf};
ghost use Rattle.hz_line.specs.Line.{most_text_bytes};
ghost use Rattle.hz_pattern_text.specs.PatternFault.{IsLeastPatternFault, IsPatternFaultless, IsPatternRefusal};
ghost use Rattle.hz_pattern_text.specs.PatternText.{IsPatternsValue, ArePatternsFor};

use crate::printed::{Front, ZeroLines, take_lines, zero_lines};
use crate::read::read_behind;
use crate::value::{MAX_PATTERNS, Patterns};
use hz_core::{Circuit, Memory};
use hz_outside::{FirstLines, Receive};
use hz_text::TextFault;
use std::alloc::Global;
use std::marker::Model;

/// Reads the patterns of a circuit from a text that comes part by part, as [`read_patterns`](crate::read_patterns) reads them from
/// a whole one. While lines are as [`print_patterns`](crate::print_patterns) prints them, of a text that begins without a line
/// `hold`, it keeps their bits alone. From the first other line on it keeps the text.
#[derive(Drop)]
pub struct PatternReader<'c> {
    alloc: Global,
    circuit: &'c Circuit,
    zeros: ZeroLines,
    front: Front,
    // Whether all whole lines so far are as they are printed.
    printed: bool,
    // The bytes behind the lines of the front.
    waiting: Vec<u8>,
}

impl<'c> Model for PatternReader<'c> {
    ghost use Rattle.hz_pattern_text.specs.PatternReading.{PatternsReceived};

    ghost Value = { PatternsReceived };

    ghost use Rattle.hz_pattern_text.specs.PatternReader.{received_by, CanGoOn};

    ghost view = { received_by };

    ghost invariant = { CanGoOn };
}

impl<'c> PatternReader<'c> {
    /// A reader that has received nothing.
    pub fn new(alloc: Global, circuit: &'c Circuit) -> Result<PatternReader<'c>, Memory>
        ensures { IfOk result
            (λ reader. reader ≡ record { netlist = circuit.now; received = [] }) }
    {
        let inputs = circuit.inputs() as usize;
        let zeros = zero_lines(alloc, inputs)?;
        Ok(PatternReader {
            alloc,
            circuit,
            zeros,
            front: Front {
                count: 0,
                bits: Vec::new(alloc),
            },
            printed: inputs != 0,
            waiting: Vec::new(alloc),
        })
    }

    /// The patterns of what was received.
    pub fn finish(self) -> Result<Patterns, TextFault>
        requires { length self.received ≤ most_text_bytes }
        ensures value { IfOk result (IsPatternsValue self.entry.netlist self.entry.received) }
        ensures usable { IfOk result (ArePatternsFor self.entry.netlist) }
        ensures faultless { OnOk result
            (IsPatternFaultless self.entry.netlist self.entry.received) }
        ensures fault { IfErr result (IsPatternRefusal self.entry.netlist self.entry.received) }
        ensures exact { (fault : TextFault) →
            IsLeastPatternFault self.entry.netlist self.entry.received fault
            → IsErrOf result fault ⊎ IsErrOf result TextFault.Memory }
    {
        read_behind(
            self.alloc,
            self.circuit,
            self.front,
            self.waiting.as_slice(),
        )
    }

    // Takes the bytes that follow those taken so far. A line that waits comes to its end first.
    pub(crate) fn take_part(&mut self, part: &[u8]) -> Result<(), Memory>
        ensures received { OnOk result (self.new.received ≡ self.old.received ++ part.now) }
        ensures netlist { self.new.netlist ≡ self.old.netlist }
    {
        let (first, rest) = part.split_at(self.lacks().min(part.len()));
        keep(&mut self.waiting, first)?;
        self.take_waiting()?;
        self.take_behind(rest)
    }

    // Takes room for the bits of a text of so many bytes, if its lines are as they are printed.
    fn make_room(&mut self, bytes: usize) -> Result<(), Memory>
        ensures received { OnOk result (self.new.received ≡ self.old.received) }
        ensures netlist { self.new.netlist ≡ self.old.netlist }
    {
        let inputs = self.circuit.inputs() as usize;
        let lines = (bytes / (10 + 2 * inputs)).min(MAX_PATTERNS);
        self.front.bits.reserve(lines * (2 * inputs))?;
        Ok(())
    }

    // How many bytes the line that waits lacks.
    fn lacks(&self) -> usize {
        if !self.printed || self.waiting.is_empty() {
            return 0;
        }
        let width = 10 + 2 * self.circuit.inputs() as usize;
        width.saturating_sub(self.waiting.len())
    }

    // Takes what waits, if it is a whole line as it is printed.
    fn take_waiting(&mut self) -> Result<(), Memory>
        ensures received { OnOk result (self.new.received ≡ self.old.received) }
        ensures netlist { self.new.netlist ≡ self.old.netlist }
    {
        let inputs = self.circuit.inputs() as usize;
        if !self.printed || self.waiting.len() != 10 + 2 * inputs {
            return Ok(());
        }
        let line = self.waiting.as_slice();
        if take_lines(&mut self.front, &self.zeros, inputs, line)? == 0 {
            self.printed = false;
            return Ok(());
        }
        self.waiting.clear();
        Ok(())
    }

    // Takes further bytes: whole lines off their front, if nothing waits. What is left waits.
    fn take_behind(&mut self, bytes: &[u8]) -> Result<(), Memory>
        ensures received { OnOk result (self.new.received ≡ self.old.received ++ bytes.now) }
        ensures netlist { self.new.netlist ≡ self.old.netlist }
    {
        let inputs = self.circuit.inputs() as usize;
        if !self.printed || !self.waiting.is_empty() {
            keep(&mut self.waiting, bytes)?;
            return Ok(());
        }
        let taken = take_lines(&mut self.front, &self.zeros, inputs, bytes)?;
        let rest = &bytes[taken..];
        self.printed = rest.len() < 10 + 2 * inputs;
        keep(&mut self.waiting, rest)?;
        Ok(())
    }
}

impl<'c> Receive for PatternReader<'c> {
    ghost use Rattle.hz_core.specs.Netlist.{Netlist};

    ghost received = { λ reader. reader.received };

    ghost Fixed = { Netlist };

    ghost fixed = { λ reader. reader.netlist };

    fn expect(&mut self, bytes: usize) -> Result<(), hz_outside::Memory> {
        match self.make_room(bytes) {
            Ok(()) => Ok(()),
            Err(_) => Err(hz_outside::Memory),
        }
    }

    fn receive(&mut self, part: &[u8]) -> Result<(), hz_outside::Memory> {
        match self.take_part(part) {
            Ok(()) => Ok(()),
            Err(_) => Err(hz_outside::Memory),
        }
    }

    // The lines whose bits alone are kept.
    fn first_lines(&self) -> FirstLines {
        let width = 10 + 2 * self.circuit.inputs() as usize;
        FirstLines {
            lines: self.front.count,
            bytes: self.front.count * width,
        }
    }
}

// Lets bytes wait behind those that wait.
fn keep(waiting: &mut Vec<u8>, bytes: &[u8]) -> Result<(), Memory>
    ensures { OnOk result (waiting.new.items ≡ waiting.old.items ++ bytes.now) }
{
    waiting.extend_from_slice(bytes)?;
    Ok(())
}
