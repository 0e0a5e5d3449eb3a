//! Files in memory, with loads that fail.
ghost use Rattle.std.specs.Prelude.{◌≡◌, [], ◌∷◌, ◌++◌, OnOk, OnErr, MatchResult};
ghost use Rattle.hz_outside.specs.MemFiles.{empty_files, GivesFile, GivesNoFile};

use super::counts::PlaceCounts;
use super::fault::{LoadFault, Memory, Place};
use super::files::Files;
use super::shelf::Shelf;
use std::alloc::Global;
use std::marker::Model;

/// Files in memory, for tests of what is generic over [`Files`].
///
/// Calls of `load` are numbered from 1, and those in a list fail. A name that was not added is held
/// as the empty file, and of a name that was added twice the first counts.
#[derive(Drop)]
pub struct MemFiles {
    shelf: Shelf,
    failing: Vec<u64>,
    calls: u64,
    faults: PlaceCounts,
    longs: PlaceCounts,
}

impl Model for MemFiles {
    ghost use Rattle.hz_outside.specs.MemFiles.{MemState};

    ghost Value = { MemState };

    ghost view = { λ files. record {
      files = files.shelf;
      failing = files.failing.items;
      calls = files.calls;
      faults = files.faults;
      longs = files.longs;
    } };
}

impl MemFiles {
    /// No file, and no load that fails.
    pub fn new(alloc: Global) -> MemFiles
        ensures { result ≡ empty_files }
    {
        MemFiles {
            shelf: Shelf::new(alloc),
            failing: Vec::new(alloc),
            calls: 0,
            faults: PlaceCounts::new(),
            longs: PlaceCounts::new(),
        }
    }

    /// Adds a file after those that are there.
    pub fn add(&mut self, name: &str, bytes: &[u8]) -> Result<(), Memory>
        ensures ok { OnOk result (self.new ≡ record self.old {
          files = self.old.files ++ record { name = name.now; bytes = bytes.now } ∷ [];
        }) }
        ensures err { OnErr result (self.new ≡ self.old) }
    {
        self.shelf.add(name, bytes)
    }

    /// Lets the load of this number fail.
    pub fn fail(&mut self, call: u64) -> Result<(), Memory>
        ensures ok { OnOk result
            (self.new ≡ record self.old { failing = self.old.failing ++ call ∷ [] }) }
        ensures err { OnErr result (self.new ≡ self.old) }
    {
        let Ok(_) = self.failing.push(call) else {
            return Err(Memory);
        };
        Ok(())
    }
}

impl Files for MemFiles {
    ghost use Rattle.std.specs.Prelude.{⊤, Some};
    ghost use Rattle.hz_outside.specs.Places.{count_for};
    ghost use Rattle.hz_outside.specs.Shelf.{contents_of};

    ghost held = { λ files. Some (contents_of files.files) };

    ghost granted = { λ _ _ _ _. ⊤ };

    ghost faults = { λ files place. count_for files.faults place };

    ghost longs = { λ files place. count_for files.longs place };

    fn load(
        &mut self,
        alloc: Global,
        place: Place,
        name: &str,
        most: usize,
    ) -> Result<Vec<u8>, LoadFault>
        ensures { MatchResult result
            (λ file. GivesFile self.old name.now most file.items self.new)
            (λ fault. GivesNoFile self.old place name.now most fault self.new) }
    {
        self.calls = self.calls.saturating_add(1);
        if self.failing.contains(&self.calls) {
            self.faults.raise(place);
            return Err(LoadFault::Failed);
        }
        let held = self.shelf.find(name);
        if held.len() > most {
            self.longs.raise(place);
            return Err(LoadFault::TooLong);
        }
        let Ok(file) = Vec::from_slice(alloc, held) else {
            return Err(LoadFault::Memory);
        };
        Ok(file)
    }
}
