//! Files in memory, of which no load fails.
ghost use Rattle.std.specs.Prelude.{◌≡◌, [], ◌∷◌, ◌++◌, OnOk, OnErr, MatchResult};
ghost use Rattle.hz_outside.specs.PlainFiles.{empty_plain, GivesPlain, GivesNoPlain};

use super::counts::PlaceCounts;
use super::fault::{LoadFault, Memory, Place};
use super::files::Files;
use super::shelf::Shelf;
use std::alloc::Global;
use std::marker::Model;

/// Files in memory, of which no load fails. Names are held as in `MemFiles`.
#[derive(Drop)]
pub struct PlainFiles {
    shelf: Shelf,
    longs: PlaceCounts,
}

impl Model for PlainFiles {
    ghost use Rattle.hz_outside.specs.PlainFiles.{PlainState};

    ghost Value = { PlainState };

    ghost view = { λ files. record { files = files.shelf; longs = files.longs } };
}

impl PlainFiles {
    /// No file.
    pub fn new(alloc: Global) -> PlainFiles
        ensures { result ≡ empty_plain }
    {
        PlainFiles {
            shelf: Shelf::new(alloc),
            longs: PlaceCounts::new(),
        }
    }

    /// Adds a file after those that are there.
    pub fn add(&mut self, name: &str, bytes: &[u8]) -> Result<(), Memory>
        ensures ok { OnOk result (self.new ≡ record self.old {
          files = self.old.files ++ record { name = name.now; bytes = bytes.now } ∷ [];
        }) }
        ensures err { OnErr result (self.new ≡ self.old) }
    {
        self.shelf.add(name, bytes)
    }
}

impl Files for PlainFiles {
    ghost use Rattle.std.specs.Prelude.{⊤, Some};
    ghost use Rattle.hz_outside.specs.Places.{count_for};
    ghost use Rattle.hz_outside.specs.Shelf.{contents_of};

    ghost held = { λ files. Some (contents_of files.files) };

    ghost granted = { λ _ _ _ _. ⊤ };

    ghost faults = { λ _ _. 0 };

    ghost longs = { λ files place. count_for files.longs place };

    fn load(
        &mut self,
        alloc: Global,
        place: Place,
        name: &str,
        most: usize,
    ) -> Result<Vec<u8>, LoadFault>
        ensures { MatchResult result
            (λ file. GivesPlain self.old name.now most file.items self.new)
            (λ fault. GivesNoPlain self.old place name.now most fault self.new) }
    {
        let held = self.shelf.find(name);
        if held.len() > most {
            self.longs.raise(place);
            return Err(LoadFault::TooLong);
        }
        let Ok(file) = Vec::from_slice(alloc, held) else {
            return Err(LoadFault::Memory);
        };
        Ok(file)
    }
}
