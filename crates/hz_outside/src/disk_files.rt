//! Files of the file system: the trusted edge.
ghost use Rattle.std.specs.Prelude.{◌≡◌};
ghost use Rattle.hz_outside.specs.Places.{no_counts};

use super::named_files::NamedFiles;
use super::open_named::OpenNamed;
use std::fs::OpenFile;
use std::{fs, rt};

/// The file system that a runtime reaches, which shows no contents.
#[derive(Drop)]
pub struct Disk<'r, R: rt::Files> {
    rt: &'r R,
}

impl<'r, R: rt::Files> OpenNamed for Disk<'r, R> {
    ghost use Rattle.std.specs.Prelude.{None};

    type File = R::File;

    ghost told = { λ _. None };

    fn open(&self, name: &str) -> Option<R::File> {
        fs::open(self.rt, name).ok()
    }

    fn told_size(file: &R::File) -> usize {
        match file.metadata() {
            Ok(found) => usize::try_from(found.len()).unwrap_or(0),
            Err(_) => 0,
        }
    }
}

/// Files of the file system.
pub type DiskFiles<'r, R> = NamedFiles<Disk<'r, R>>;

impl<'r, R: rt::Files> NamedFiles<Disk<'r, R>> {
    /// The files that the runtime reaches. Nothing was loaded so far.
    pub fn new(rt: &'r R) -> DiskFiles<'r, R>
        ensures { result ≡ record {
          from = result.from;
          faults = no_counts;
          longs = no_counts;
        } }
    {
        NamedFiles::over(Disk { rt })
    }
}
