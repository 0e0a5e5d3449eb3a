//! The search for a run that keeps orders and comes to rest. Nothing is promised of what it writes: who calls it checks that.
//!
//! It changes one unstable variable a step. By two ways of three the newest one comes first, so that a gate answers each of its wires at once
//! and pulses show. If this does not come to rest, it goes on with the oldest one first. A variable that an order holds waits until the first
//! wire of the order has changed. If only such variables are unstable, those change in one step that may together.

use crate::OrderedChange;
use crate::holding::Holding;
use crate::tables::{is_marked, number_at, set_mark, set_number};
use hz_core::Memory;
use hz_gmw::Run;
use std::alloc::Global;

/// A search: the state so far, how often each variable has changed, what is due to be looked at from a place on, once each, and what waits
/// for the first wire of an order. No variable is marked but while a step of several is made.
#[derive(Drop)]
pub(crate) struct Search<'a> {
    pub(crate) change: &'a OrderedChange<'a>,
    pub(crate) holding: Holding<'a>,
    pub(crate) state: Vec<bool>,
    pub(crate) counts: Vec<u32>,
    pub(crate) marks: Vec<bool>,
    pub(crate) waits: Vec<u32>,
    way: Way,
    due: Vec<u32>,
    listed: Vec<bool>,
    oldest: usize,
}

/// In which order variables change: which of those that read a variable comes first, the newest or the oldest variable that is due.
#[derive(Clone, Copy, PartialEq, Eq)]
enum Way {
    NewestFirst,
    NewestLast,
    Oldest,
}

/// Writes steps that may be a run that keeps the orders and comes to rest. Of three ways it takes that with the most changes.
pub(crate) fn find_steps(
    alloc: Global,
    change: &OrderedChange,
    run: &mut Run,
) -> Result<(), Memory> {
    let mut best = Way::Oldest;
    let mut most = search_by(alloc, change, best, run)?;
    for way in [Way::NewestFirst, Way::NewestLast] {
        let changes = search_by(alloc, change, way, run)?;
        if changes > most {
            best = way;
            most = changes;
        }
    }
    search_by(alloc, change, best, run)?;
    Ok(())
}

// Writes steps by one way. How many changes they have, or 0 if some variable is still unstable.
fn search_by(
    alloc: Global,
    change: &OrderedChange,
    way: Way,
    run: &mut Run,
) -> Result<usize, Memory> {
    let variables = change.net.len();
    let mut search = Search {
        change,
        holding: Holding::new(alloc, variables, change.orders)?,
        state: Vec::from_slice(alloc, change.start)?,
        counts: vec![in alloc; 0; variables as usize]?,
        marks: vec![in alloc; false; variables as usize]?,
        waits: Vec::new(alloc),
        way,
        due: Vec::new(alloc),
        listed: vec![in alloc; false; variables as usize]?,
        oldest: 0,
    };
    search.begin()?;
    run.clear();
    search.go(alloc, run)?;
    if search.waits.is_empty() && search.due.is_empty() {
        return Ok(run.flips());
    }
    Ok(0)
}

impl Search<'_> {
    // Makes steps until there is none, or there were many. In the second half of them the oldest variable comes first.
    fn go(&mut self, alloc: Global, run: &mut Run) -> Result<(), Memory> {
        let half = 2 * u64::from(self.change.net.len()) + 64;
        for number in 0..2 * half {
            if number == half {
                self.way = Way::Oldest;
            }
            if !self.go_on(alloc, run)? {
                break;
            }
        }
        Ok(())
    }

    // The inputs are due.
    fn begin(&mut self) -> Result<(), Memory> {
        for input in 0..self.change.net.circuit().inputs() {
            self.due.push(input)?;
        }
        Ok(())
    }

    // Makes a step. False if there is none.
    fn go_on(&mut self, alloc: Global, run: &mut Run) -> Result<bool, Memory> {
        for _ in 0..usize::MAX {
            let Some(var) = self.take() else {
                return self.make_jointly(alloc, run);
            };
            set_mark(self.listed.as_mut_slice(), var, false);
            if !self.is_unstable(var) {
                continue;
            }
            if self.is_free(var) {
                self.make(&[var], run)?;
                return Ok(true);
            }
            self.waits.push(var)?;
        }
        Ok(false)
    }

    // Takes a variable that is due.
    fn take(&mut self) -> Option<u32> {
        if self.oldest >= self.due.len() {
            self.due.clear();
            self.oldest = 0;
            return None;
        }
        if self.way != Way::Oldest {
            return self.due.pop();
        }
        let var = self.due[self.oldest];
        self.oldest += 1;
        Some(var)
    }

    /// Whether no order holds a variable, but for those whose first wire is marked.
    pub(crate) fn is_free(&self, var: u32) -> bool {
        self.holding
            .is_free(var, self.counts.as_slice(), self.marks.as_slice())
    }

    /// Whether a variable is unstable.
    pub(crate) fn is_unstable(&self, var: u32) -> bool {
        let net = self.change.net;
        let input = self.change.input;
        let state = self.state.as_slice();
        if var >= net.len()
            || state.len() != net.len() as usize
            || input.len() != net.circuit().inputs() as usize
        {
            return false;
        }
        state[var as usize] != net.excite(input, state, var)
    }

    /// Makes a step. What reads a variable that changed is due, and what waited for it before that.
    pub(crate) fn make(&mut self, flips: &[u32], run: &mut Run) -> Result<(), Memory> {
        run.reserve(flips.len(), 1)?;
        run.push_step(flips);
        for var in flips {
            self.turn(*var);
        }
        for var in flips {
            if number_at(self.counts.as_slice(), *var) == 1 {
                self.holding.add_seconds(*var, &mut self.due)?;
            }
        }
        for var in flips {
            self.add_readers(*var)?;
        }
        Ok(())
    }

    // Changes a variable.
    fn turn(&mut self, var: u32) {
        let bit = is_marked(self.state.as_slice(), var);
        set_mark(self.state.as_mut_slice(), var, !bit);
        let count = number_at(self.counts.as_slice(), var);
        set_number(self.counts.as_mut_slice(), var, count.saturating_add(1));
    }

    // What reads a variable is due.
    fn add_readers(&mut self, var: u32) -> Result<(), Memory> {
        if var >= self.change.net.len() {
            return Ok(());
        }
        let readers = self.change.net.readers(var);
        for place in 0..readers.len() {
            let at = match self.way {
                Way::NewestFirst => readers.len() - 1 - place,
                Way::NewestLast => place,
                Way::Oldest => place,
            };
            self.add(readers[at])?;
        }
        Ok(())
    }

    // A variable is due, once as long as it is not looked at. So what swings for ever takes no more room each time.
    fn add(&mut self, var: u32) -> Result<(), Memory> {
        if !is_marked(self.listed.as_slice(), var) {
            set_mark(self.listed.as_mut_slice(), var, true);
            self.due.push(var)?;
        }
        Ok(())
    }
}
