//! Counts of faults for each place.
ghost use Rattle.std.specs.Prelude.{◌≡◌};
ghost use Rattle.hz_outside.specs.Places.{no_counts, counts_after};

use super::fault::Place;
use std::marker::Model;

/// A count for each place, which stops at its last value.
#[derive(Drop)]
pub(crate) struct PlaceCounts {
    first: u64,
    second: u64,
}

impl Model for PlaceCounts {
    ghost use Rattle.hz_outside.specs.Places.{Counts};

    ghost Value = { Counts };

    ghost view = { λ counts. record { first = counts.first; second = counts.second } };
}

impl PlaceCounts {
    pub(crate) fn new() -> PlaceCounts
        ensures { result ≡ no_counts }
    {
        PlaceCounts {
            first: 0,
            second: 0,
        }
    }

    /// Counts one more at a place.
    pub(crate) fn raise(&mut self, place: Place)
        ensures { self.new ≡ counts_after self.old place }
    {
        match place {
            Place::First => self.first = self.first.saturating_add(1),
            Place::Second => self.second = self.second.saturating_add(1),
        }
    }
}
