//! What opens a file by its name.
ghost use Rattle.std.specs.Prelude.{◌≡◌, ℕ, List, Option, Some, IfSome};

use std::io::Read;

/// What opens a file by its name.
///
/// `told` gives the bytes of each name, if they are shown.
pub trait OpenNamed {
    type File: Read + Drop;

    ghost told: { Self → Option (List ℕ → List ℕ) };

    /// The file of this name, which is to be read from its first byte on.
    fn open(&self, name: &str) -> Option<Self::File>
        ensures { IfSome result (λ file. IfSome (told self.now)
            (λ bytes_of. Self.File.remaining file ≡ Some (bytes_of name.now))) };

    /// How many bytes a file says that it has. It is a hint: a pipe says 0, and a file may be changed while it is read.
    fn told_size(file: &Self::File) -> usize;
}
