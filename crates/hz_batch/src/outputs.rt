//! The line of a number, in which each output of a circuit has two values. Its bytes are kept: word by word, `batch` on an adder of
//! 32 bits takes 207 million instructions in place of 72.
ghost use Rattle.std.specs.Prelude.{◌≡◌, ◌<◌, ◌+◌, ◌++◌, [], ◌∷◌, length, map, slice_set, IfOk, OnOk};
ghost use Rattle.hz_core.specs.declared.tri.Tri.TheVariants.{Unknown};
ghost use Rattle.hz_write.specs.Writer.{Writes, NoneWaits};
ghost use Rattle.hz_batch.specs.Outputs.{outputs_line};

use crate::digits::{Digits, MAX_DIGITS};
use crate::letter::Letter;
use hz_core::{Circuit, Memory};
use hz_outside::Sink;
use hz_write::Writer;
use std::alloc::Global;
use std::marker::Model;

/// The line of a number, in which each output of a circuit has two values: `7 z=X0 carry=11`.
///
/// The line is kept as bytes, with room for the digits of any number in front. From one line to the next only digits and letters
/// change, so it is put as it is. The values are what these letters say.
#[derive(Drop)]
pub(crate) struct OutputLine<'c> {
    circuit: &'c Circuit,
    digits: Digits,
    text: Vec<u8>,
    // Where the letters of each output stand in the text.
    places: Vec<usize>,
}

impl<'c> Model for OutputLine<'c> {
    ghost use Rattle.hz_batch.specs.Outputs.{LineOf};
    ghost use Rattle.hz_batch.specs.LineInside.{line_of_fields, HoldsLine};

    ghost Value = { LineOf };

    ghost view = { line_of_fields };

    ghost invariant = { HoldsLine };
}

impl<'c> OutputLine<'c> {
    /// The line of a circuit's outputs, with X for each value. Only this call takes memory.
    pub(crate) fn new(alloc: Global, circuit: &'c Circuit) -> Result<OutputLine<'c>, Memory>
        ensures { IfOk result
            (λ line. line
            ≡ record {
              netlist = circuit.now;
              values = map (λ _. (Unknown, Unknown)) circuit.now.outputs;
            }) }
    {
        circuit.keeps_shape();
        let mut text = vec![in alloc; b' '; MAX_DIGITS]?;
        let mut places = Vec::new(alloc);
        for node in circuit.outputs() {
            add_word(circuit.name(*node), &mut text, &mut places)?;
        }
        let Ok(()) = text.push(b'\n') else {
            return Err(Memory);
        };
        Ok(OutputLine {
            circuit,
            digits: Digits::new(alloc)?,
            text,
            places,
        })
    }

    /// Gives an output its two values. Outputs are numbered from 0, in their order.
    #[inline(always)]
    pub(crate) fn set(&mut self, output: usize, first: Letter, second: Letter)
        requires { output < length self.old.values }
        ensures { self.new
            ≡ record self.old { values = slice_set self.old.values output (first, second) } }
    {
        let place = self.places[output];
        self.text[place] = first.byte();
        self.text[place + 1] = second.byte();
    }

    /// Gives the line to a writer, with a number in front. The number after the one before takes least time.
    #[inline(always)]
    pub(crate) fn write<K: Sink>(&mut self, writer: &mut Writer<'_, K>, number: u32)
        ensures same { self.new ≡ self.old }
        ensures gave { Writes K.output K.faults
            (outputs_line self.old.netlist number self.old.values) writer.old
            writer.new }
        ensures none_waits { NoneWaits writer.new }
    {
        self.digits.count_to(number);
        let begin = self.digits.put(self.text.as_mut_slice());
        writer.end_by(&self.text.as_slice()[begin..]);
    }
}

// Adds the word of an output to a text, with X for both values, and the place of their letters.
fn add_word(name: &[u8], text: &mut Vec<u8>, places: &mut Vec<usize>) -> Result<(), Memory>
    ensures text { OnOk result
        (text.new.items ≡ text.old.items ++ (((32 ∷ name.now) ++ 61 ∷ []) ++ 88 ∷ 88 ∷ [])) }
    ensures place { OnOk result
        (places.new.items
        ≡ places.old.items
        ++ (length text.old.items + length ((32 ∷ name.now) ++ 61 ∷ [])) ∷ []) }
{
    let Ok(()) = text.push(b' ') else {
        return Err(Memory);
    };
    let Ok(()) = text.extend_from_slice(name) else {
        return Err(Memory);
    };
    let Ok(()) = text.push(b'=') else {
        return Err(Memory);
    };
    let Ok(()) = places.push(text.len()) else {
        return Err(Memory);
    };
    let Ok(()) = text.extend_from_slice(b"XX") else {
        return Err(Memory);
    };
    Ok(())
}
