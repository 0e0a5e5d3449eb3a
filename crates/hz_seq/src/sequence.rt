//! The sequence.
ghost use Rattle.std.specs.Prelude.{◌≡◌, ◌<◌, ◌≤◌, Some, None, length, take, All, IfOk, MatchResult};
ghost use Rattle.hz_net.specs.Starts.{IsStableStart};
ghost use Rattle.hz_desk.specs.Finding.{finding_of};
ghost use Rattle.hz_seq.specs.Sequence.{IsFindingOfChange, IsLeftBy, changed_input};
ghost use Rattle.hz_word.specs.Capped.{greatest_cap};

use crate::settled::settle;
use hz_core::Memory;
use hz_desk::{Desk, Finding};
use std::alloc::Global;
use std::marker::Model;
use thiserror::Error;

/// Why a change isn't made: a variable is X in the result of Algorithm B of the change before, so that no one state is where
/// that change settles.
#[derive(Clone, Copy, Debug, PartialEq, Eq, Error)]
#[error("variable {var} is unsettled")]
pub struct Stopped {
    /// The first variable that is X.
    pub var: u32,
}

/// Changes of the inputs of one circuit, made one after the other. The circuit is at rest before each of them, in the
/// fundamental mode of asynchronous circuits: the next change comes only after the one before has settled.
///
/// All memory is taken when it is made, however many changes follow.
#[derive(Drop)]
pub struct Sequence<'n> {
    desk: Desk<'n>,
    start: Vec<bool>,
    // Room for the new input of a change.
    input: Vec<bool>,
    stopped: Option<u32>,
}

impl<'n> Model for Sequence<'n> {
    ghost use Rattle.hz_seq.specs.Sequence.{SequenceState};
    ghost use Rattle.hz_seq.specs.Inside.{HoldsSequence};

    ghost Value = { SequenceState };

    ghost view = { λ fields. record {
      desk = fields.desk;
      start = fields.start.items;
      stopped = fields.stopped;
    } };

    ghost invariant = { HoldsSequence };
}

impl<'n> Sequence<'n> {
    ghost use Rattle.std.specs.Borrow.{sem};
    ghost use Rattle.hz_seq.specs.Lent.{LeavesSequence};

    /// A sequence that begins at a start, which is stable under its own inputs. If memory runs out, the desk is dropped.
    pub fn new(alloc: Global, desk: Desk<'n>, start: &[bool]) -> Result<Sequence<'n>, Memory>
        requires { IsStableStart desk.netlist start.now }
        ensures { IfOk result
            (λ sequence. sequence
            ≡ record { desk = desk.entry; start = start.now; stopped = None }) }
    {
        let Ok(start) = Vec::from_slice(alloc, start) else {
            return Err(Memory);
        };
        let inputs = desk.net().circuit().inputs() as usize;
        let Ok(input) = vec![in alloc; false; inputs] else {
            return Err(Memory);
        };
        Ok(Sequence {
            desk,
            start,
            input,
            stopped: None,
        })
    }

    /// The desk at which the changes are analysed.
    pub fn desk(&self) -> &Desk<'n>
        ensures { result.now ≡ self.now.desk }
    {
        &self.desk
    }

    /// Makes the next change: it assigns inputs of the present state, and the others stay. The changes of words are counted
    /// up to the cap. It takes no memory.
    ///
    /// A change after one that leaves a variable unsettled is not made, and the sequence stays as it is.
    pub fn next(&mut self, change: &[(u32, bool)], cap: u64) -> Result<&Finding, Stopped>
        requires inputs { All (λ pair. pair.0 < self.old.desk.netlist.inputs) change.now }
        requires cap_low { 1 ≤ cap }
        requires cap_high { cap ≤ greatest_cap }
        ensures finding { MatchResult result
            (λ finding. (self.old.stopped ≡ None)
            × IsFindingOfChange self.old.desk.netlist cap self.old.start change.now
            (finding_of finding.now))
            (λ fault. self.old.stopped ≡ Some fault.var) }
        ensures* after { sem 𝓛 (LeavesSequence self.entry (λ last.
            MatchResult result (λ finding. IsLeftBy (finding_of finding.now) self.old last)
            (λ fault. last ≡ self.old))) }
    {
        self.make(change, cap)?;
        Ok(self.desk.finding())
    }

    // Makes the next change, and leaves its finding at the desk.
    fn make(&mut self, change: &[(u32, bool)], cap: u64) -> Result<(), Stopped>
        requires inputs { All (λ pair. pair.0 < self.old.desk.netlist.inputs) change.now }
        requires cap_low { 1 ≤ cap }
        requires cap_high { cap ≤ greatest_cap }
        ensures finding { MatchResult result
            (λ _. (self.old.stopped ≡ None)
            × IsFindingOfChange self.old.desk.netlist cap self.old.start change.now
            self.new.desk.finding)
            (λ fault. self.old.stopped ≡ Some fault.var) }
        ensures after { MatchResult result (λ _. IsLeftBy self.new.desk.finding self.old self.new)
            (λ fault. self.new ≡ self.old) }
    {
        if let Some(var) = self.stopped {
            return Err(Stopped { var });
        }
        self.desk.net().keeps_shape();
        write_input(self.start.as_slice(), change, self.input.as_mut_slice());
        self.desk
            .change(self.start.as_slice(), self.input.as_slice(), cap);
        let found = self.desk.finding();
        let values = found.rows.values_b();
        self.stopped = settle(values, self.start.as_mut_slice());
        Ok(())
    }
}

// Writes the input after a change of the inputs of a state.
fn write_input(state: &[bool], change: &[(u32, bool)], input: &mut [bool])
    requires state { length input.old ≤ length state.now }
    requires inputs { All (λ pair. pair.0 < length input.old) change.now }
    ensures { input.new ≡ changed_input (take (length input.old) state.now) change.now }
{
    input.copy_from_slice(&state[..input.len()]);
    for (place, bit) in change {
        input[*place as usize] = *bit;
    }
}
