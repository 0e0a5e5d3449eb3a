//! Steps of several variables, none of which may change alone: an order may be kept by a step that changes both of its wires.

use crate::search::Search;
use crate::tables::{is_marked, set_mark};
use hz_core::Memory;
use hz_gmw::Run;
use std::alloc::Global;

impl Search<'_> {
    /// Makes a step of all variables that wait and may change together. False if there are none.
    pub(crate) fn make_jointly(&mut self, alloc: Global, run: &mut Run) -> Result<bool, Memory> {
        self.mark_waiting(alloc)?;
        for _ in 0..self.waits.len() {
            if !self.leave_out() {
                break;
            }
        }
        let flips = self.take_marked(alloc)?;
        if flips.is_empty() {
            return Ok(false);
        }
        self.make(flips.as_slice(), run)?;
        Ok(true)
    }

    // Marks all variables that wait and are unstable. The others wait no more.
    fn mark_waiting(&mut self, alloc: Global) -> Result<(), Memory> {
        let mut left = Vec::new(alloc);
        for place in 0..self.waits.len() {
            let Some(waiting) = self.waits.get(place) else {
                break;
            };
            let var = *waiting;
            if !is_marked(self.marks.as_slice(), var) && self.is_unstable(var) {
                set_mark(self.marks.as_mut_slice(), var, true);
                left.push(var)?;
            }
        }
        self.waits = left;
        Ok(())
    }

    // Takes the mark from those that an order holds whose first wire is not marked. Whether there were some.
    fn leave_out(&mut self) -> bool {
        let mut some = false;
        for place in 0..self.waits.len() {
            let Some(waiting) = self.waits.get(place) else {
                break;
            };
            let var = *waiting;
            if is_marked(self.marks.as_slice(), var) && !self.is_free(var) {
                set_mark(self.marks.as_mut_slice(), var, false);
                some = true;
            }
        }
        some
    }

    // What is marked. It is so no more.
    fn take_marked(&mut self, alloc: Global) -> Result<Vec<u32>, Memory> {
        let mut flips = Vec::new(alloc);
        for place in 0..self.waits.len() {
            let Some(waiting) = self.waits.get(place) else {
                break;
            };
            let var = *waiting;
            if is_marked(self.marks.as_slice(), var) {
                set_mark(self.marks.as_mut_slice(), var, false);
                flips.push(var)?;
            }
        }
        Ok(flips)
    }
}
