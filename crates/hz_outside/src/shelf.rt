//! Named files in memory.
ghost use Rattle.std.specs.Prelude.{◌≡◌, [], ◌∷◌, ◌++◌, OnOk, OnErr};
ghost use Rattle.hz_outside.specs.Shelf.{contents_of};

use super::fault::Memory;
use std::alloc::Global;
use std::marker::Model;

/// A file with its name.
#[derive(Drop)]
struct NamedFile {
    name: String,
    bytes: Vec<u8>,
}

impl Model for NamedFile {
    ghost use Rattle.std.specs.Prelude.{string_bytes};
    ghost use Rattle.hz_outside.specs.Shelf.{NamedBytes};

    ghost Value = { NamedBytes };

    ghost view = { λ file. record { name = string_bytes file.name; bytes = file.bytes.items } };
}

/// The files that were added, in order.
#[derive(Drop)]
pub(crate) struct Shelf {
    alloc: Global,
    files: Vec<NamedFile>,
}

impl Model for Shelf {
    ghost use Rattle.std.specs.Prelude.{List};
    ghost use Rattle.hz_outside.specs.Shelf.{NamedBytes};

    ghost Value = { List NamedBytes };

    ghost view = { λ shelf. shelf.files.items };
}

impl Shelf {
    pub(crate) fn new(alloc: Global) -> Shelf
        ensures { result ≡ [] }
    {
        Shelf {
            alloc,
            files: Vec::new(alloc),
        }
    }

    /// Adds a file after those that are there.
    pub(crate) fn add(&mut self, name: &str, bytes: &[u8]) -> Result<(), Memory>
        ensures ok { OnOk result
            (self.new ≡ self.old ++ record { name = name.now; bytes = bytes.now } ∷ []) }
        ensures err { OnErr result (self.new ≡ self.old) }
    {
        let Ok(name) = String::from_str(self.alloc, name) else {
            return Err(Memory);
        };
        let Ok(bytes) = Vec::from_slice(self.alloc, bytes) else {
            return Err(Memory);
        };
        let Ok(_) = self.files.push(NamedFile { name, bytes }) else {
            return Err(Memory);
        };
        Ok(())
    }

    /// The bytes under a name, none if no file has it.
    pub(crate) fn find(&self, name: &str) -> &[u8]
        ensures { result.now ≡ contents_of self.now name.now }
    {
        find_in(self.files.as_slice(), name)
    }
}

/// The bytes of the first file of this name, none if no file has it.
fn find_in<'a>(files: &'a [NamedFile], name: &str) -> &'a [u8]
    ensures { result.now ≡ contents_of files.now name.now }
{
    for file in files {
        if file.name.as_str() == name {
            return file.bytes.as_slice();
        }
    }
    &[]
}
