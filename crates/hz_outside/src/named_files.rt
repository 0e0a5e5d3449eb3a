//! Files over what opens them by their names.
ghost use Rattle.std.specs.Prelude.{◌≡◌, ◌<◌, ◌≤◌, ◌+◌, ◌++◌, length, vec_len, take, drop, IfOk, IfSome, OnOk, MatchResult};
ghost use Rattle.std.specs.Io.KnownBytes.{Consumes, IsAtEnd};
ghost use Rattle.hz_outside.specs.Places.{no_counts};
ghost use Rattle.hz_outside.specs.NamedFiles.{named_after_fault};

use super::counts::PlaceCounts;
use super::fault::{LoadFault, Memory, Place};
use super::files::Files;
use super::open_named::OpenNamed;
use super::receive::{FirstLines, Receive};
use std::alloc::Global;
use std::io;
use std::io::Read;
use std::marker::Model;

/// How many bytes the first read asks for, if the file doesn't say how many it has.
const READ_SIZE: usize = 65_536;

/// Files that are opened by their names and read to their ends. Every load is granted.
#[derive(Drop)]
pub struct NamedFiles<O: Drop> {
    from: O,
    faults: PlaceCounts,
    longs: PlaceCounts,
    first_lines: FirstLines,
}

impl<O: Drop> Model for NamedFiles<O> {
    ghost use Rattle.hz_outside.specs.NamedFiles.{NamedState};

    ghost Value = { NamedState O };

    ghost view = { λ files. record {
      from = files.from;
      faults = files.faults;
      longs = files.longs;
    } };
}

impl<O: Drop> NamedFiles<O> {
    /// The files that are opened there. Nothing was loaded so far.
    pub fn over(from: O) -> NamedFiles<O>
        ensures { result ≡ record { from = from; faults = no_counts; longs = no_counts } }
    {
        NamedFiles {
            from,
            faults: PlaceCounts::new(),
            longs: PlaceCounts::new(),
            first_lines: FirstLines { lines: 0, bytes: 0 },
        }
    }

    /// The first lines of the file that was given to a receiver last, as far as that has read them. They are none if no file was.
    pub fn first_lines(&self) -> FirstLines {
        self.first_lines
    }

    /// Counts a fault at a place.
    fn count(&mut self, place: Place, fault: LoadFault)
        ensures { self.new ≡ named_after_fault self.old place fault }
    {
        match fault {
            LoadFault::Failed => self.faults.raise(place),
            LoadFault::TooLong => self.longs.raise(place),
            LoadFault::Memory => {}
        }
    }
}

impl<O: OpenNamed + Drop> Files for NamedFiles<O> {
    ghost use Rattle.std.specs.Prelude.{⊤};
    ghost use Rattle.hz_outside.specs.Places.{count_for};

    ghost held = { λ files. O.told files.from };

    ghost granted = { λ _ _ _ _. ⊤ };

    ghost faults = { λ files place. count_for files.faults place };

    ghost longs = { λ files place. count_for files.longs place };

    /// The bytes of the file, read until a read gives nothing or more than `most` bytes came.
    ///
    /// A count rises at each file that can't be opened or read and at each one that is too long, and at nothing else.
    fn load(
        &mut self,
        alloc: Global,
        place: Place,
        name: &str,
        most: usize,
    ) -> Result<Vec<u8>, LoadFault>
        ensures short { IfOk result (λ file. vec_len file ≤ most) }
        ensures bytes { IfOk result (λ file.
            IfSome (O.told self.old.from) (λ bytes_of. file.items ≡ bytes_of name.now)) }
        ensures over { result ≡ Err LoadFault.TooLong → IfSome (O.told self.old.from)
            (λ bytes_of. most < length (bytes_of name.now)) }
        ensures counts { MatchResult result (λ _. self.new ≡ self.old)
            (λ fault. self.new ≡ named_after_fault self.old place fault) }
    {
        let loaded = match self.from.open(name) {
            Some(mut file) => {
                let told = O::told_size(&file);
                read_up_to(alloc, &mut file, told, most)
            }
            None => Err(LoadFault::Failed),
        };
        if let Err(fault) = &loaded {
            self.count(place, *fault);
        }
        loaded
    }

    /// Gives the receiver what each read gives, until a read gives nothing or more than `most` bytes came. Counts rise as in
    /// [`load`](DiskFiles::load).
    fn load_into<T: Receive>(
        &mut self,
        alloc: Global,
        place: Place,
        name: &str,
        most: usize,
        receiver: &mut T,
    ) -> Result<(), LoadFault>
        ensures fixed { T.fixed receiver.new ≡ T.fixed receiver.old }
        ensures short { OnOk result
            (length (T.received receiver.new) ≤ length (T.received receiver.old) + most) }
        ensures bytes { OnOk result (IfSome (O.told self.old.from)
            (λ bytes_of. T.received receiver.new ≡ T.received receiver.old ++ bytes_of name.now)) }
        ensures over { result ≡ Err LoadFault.TooLong → IfSome (O.told self.old.from)
            (λ bytes_of. most < length (bytes_of name.now)) }
        ensures counts { MatchResult result (λ _. self.new ≡ self.old)
            (λ fault. self.new ≡ named_after_fault self.old place fault) }
    {
        let loaded = match self.from.open(name) {
            Some(mut file) => {
                let told = O::told_size(&file).min(most);
                pass_on_by_parts(alloc, &mut file, told, most, receiver)
            }
            None => Err(LoadFault::Failed),
        };
        self.first_lines = receiver.first_lines();
        if let Err(fault) = &loaded {
            self.count(place, *fault);
        }
        loaded
    }
}

/// Reads until a read gives nothing or more than `most` bytes came. There is room for the bytes that are told from the first
/// read on, so that these are read to where they stay.
fn read_up_to<R: Read>(
    alloc: Global,
    reader: &mut R,
    told: usize,
    most: usize,
) -> Result<Vec<u8>, LoadFault>
    ensures short { IfOk result (λ file. vec_len file ≤ most) }
    ensures whole { IfOk result
        (λ file. IfSome (R.remaining reader.old) (λ left. file.items ≡ left)) }
    ensures over { result ≡ Err LoadFault.TooLong →
        IfSome (R.remaining reader.old) (λ left. most < length left) }
{
    let mut file = Vec::new(alloc);
    let mut filled = 0;
    while filled <= most {
        let Ok(()) = make_room(&mut file, filled, told, most) else {
            return Err(LoadFault::Memory);
        };
        let Ok(count) = read_at(reader, file.as_mut_slice(), filled) else {
            return Err(LoadFault::Failed);
        };
        if count == 0 {
            file.truncate(filled);
            return Ok(file);
        }
        filled += count;
    }
    Err(LoadFault::TooLong)
}

/// Gives a receiver what each read gives, until a read gives nothing or more than `most` bytes came. It hears before how many bytes are
/// told. One buffer is used again for each part.
fn pass_on_by_parts<R: Read, T: Receive>(
    alloc: Global,
    reader: &mut R,
    told: usize,
    most: usize,
    receiver: &mut T,
) -> Result<(), LoadFault>
    ensures fixed { T.fixed receiver.new ≡ T.fixed receiver.old }
    ensures short { OnOk result
        (length (T.received receiver.new) ≤ length (T.received receiver.old) + most) }
    ensures whole { OnOk result
        (IfSome (R.remaining reader.old)
        (λ left. T.received receiver.new ≡ T.received receiver.old ++ left)) }
    ensures over { result ≡ Err LoadFault.TooLong →
        IfSome (R.remaining reader.old) (λ left. most < length left) }
{
    let Ok(()) = receiver.expect(told) else {
        return Err(LoadFault::Memory);
    };
    let Ok(mut buffer) = vec![in alloc; 0; READ_SIZE] else {
        return Err(LoadFault::Memory);
    };
    pass_on(reader, buffer.as_mut_slice(), most, receiver)
}

// The same, by a buffer for one part.
fn pass_on<R: Read, T: Receive>(
    reader: &mut R,
    buffer: &mut [u8],
    most: usize,
    receiver: &mut T,
) -> Result<(), LoadFault>
    requires { 0 < length buffer.old }
    ensures fixed { T.fixed receiver.new ≡ T.fixed receiver.old }
    ensures short { OnOk result
        (length (T.received receiver.new) ≤ length (T.received receiver.old) + most) }
    ensures whole { OnOk result
        (IfSome (R.remaining reader.old)
        (λ left. T.received receiver.new ≡ T.received receiver.old ++ left)) }
    ensures over { result ≡ Err LoadFault.TooLong →
        IfSome (R.remaining reader.old) (λ left. most < length left) }
{
    let mut left = most;
    loop {
        let Ok(len) = read_at(reader, buffer, 0) else {
            return Err(LoadFault::Failed);
        };
        if len == 0 {
            return Ok(());
        }
        if len > left {
            return Err(LoadFault::TooLong);
        }
        let Ok(()) = receiver.receive(&buffer[..len]) else {
            return Err(LoadFault::Memory);
        };
        left -= len;
    }
}

// Makes room behind the first so many bytes, which stay, if there is none.
fn make_room(file: &mut Vec<u8>, filled: usize, told: usize, most: usize) -> Result<(), Memory>
    requires { filled ≤ vec_len file.old }
    ensures front { OnOk result (take filled file.new.items ≡ take filled file.old.items) }
    ensures room { OnOk result (filled < vec_len file.new) }
{
    if filled < file.len() {
        return Ok(());
    }
    let len = next_len(filled, told).min(most.saturating_add(1));
    if len <= filled {
        return Err(Memory);
    }
    let Ok(()) = file.resize(len, 0) else {
        return Err(Memory);
    };
    Ok(())
}

// How much room there is to be if so many bytes are read: one byte more than is told, for the read that finds the end, or
// twice as much.
fn next_len(filled: usize, told: usize) -> usize {
    if filled == 0 && told != 0 {
        told.saturating_add(1)
    } else {
        filled.saturating_add(filled.max(READ_SIZE))
    }
}

// One read behind the first so many bytes, which stay.
fn read_at<R: Read>(reader: &mut R, file: &mut [u8], at: usize) -> io::Result<usize>
    requires { at < length file.old }
    ensures long { length file.new ≡ length file.old }
    ensures front { take at file.new ≡ take at file.old }
    ensures fits { IfOk result (λ count. at + count ≤ length file.new) }
    ensures read { IfOk result
        (λ count. Consumes (R.remaining reader.old) (R.remaining reader.new)
        (take count (drop at file.new))) }
    ensures end { IfOk result (λ count. count ≡ 0 → IsAtEnd (R.remaining reader.new)) }
{
    reader.read(&mut file[at..])
}
