//! What a person needs next after a refusal, on standard error. No contract speaks of it.

use hz_outside::{FirstLines, Place};
use hz_top::{Answer, Reached, Status};
use std::alloc::{AllocError, Global};
use std::io::{Read, Seek, SeekFrom};
use std::process::ExitCode;
use std::{fs, io};

/// The version of the program.
const VERSION: &str = "1.1.0";

/// How many bytes of a line are shown.
const SHOWN: usize = 120;

/// How many bytes of a file one read asks for.
const READ_SIZE: usize = 65_536;

/// How many bytes are looked at together when line feeds are counted.
const PIECE_SIZE: usize = 240;

/// The most bytes of a file that is read.
const MOST: usize = 16_777_216;

/// The exit code if memory does not hold the words.
const MEMORY: u8 = 9;

/// The exit code if the system gives no words that are text.
const SYSTEM: u8 = 10;

/// What is said if memory runs out.
const WITHOUT_MEMORY: &str = "hazard: out of memory";

/// What is said of a line with an assumption that is refused.
const ASSUMPTIONS: &str =
    "hazard: `edges` and `explore` read `order GATE(PIN) GATE(PIN) [NUMBER]` and `ideal GATE(PIN)`";

/// The jobs, their files and options, and an example.
const USAGE: &str = "\
usage:
  hazard analyse NETLIST SCRIPT [--cap N] [--show nodes|all]
                          reports what each change of the script may do
  hazard edges NETLIST SCRIPT [--cap N] [--show nodes|all]
                          says how often each variable may change, behind feedback too
  hazard explore NETLIST SCRIPT [--cap N]
                          makes the changes in every order, from each state that they lead to
  hazard split NETLIST SCRIPT
                          looks for two runs of an unsettled change that end differently
  hazard replay NETLIST RUNS
                          checks the runs that a report shows
  hazard convert NETLIST RUNS
                          writes a run text in format 2
  hazard vcd NETLIST RUNS
                          writes the last run for a waveform viewer
  hazard batch NETLIST PATTERNS
                          analyses many patterns of inputs, a line for each
  hazard reset NETLIST PATTERNS
                          says what many patterns bring about from an unknown start
  hazard demo NUMBER [--cap N]
                          analyses a circuit that is made from a number, 1 to 18000
options:
  --cap N                 numbers of changes are counted up to N, 1 to 1000000 (1000)
  --show nodes|all        the variables that have a line (nodes)
example:
  hazard analyse examples/latch.bench examples/latch.txt";

/// Says on standard error what a person needs next, if anything was refused. `read` are the lines of the second file that were read before
/// its end was.
pub fn tell(rt: &HostRuntime, answer: &Answer<'_>, read: FirstLines) {
    match (answer.status, answer.reached) {
        (Status::Words, _) => tell_usage(rt),
        (Status::Netlist | Status::Text, Some(reached)) => tell_line(rt, reached, read),
        (Status::File, Some(reached)) => tell_unread(rt, reached.name),
        (Status::TooLong, Some(reached)) => tell_long(rt, reached.name),
        (Status::Sink, _) => tell_unwritten(rt),
        (Status::Memory, _) => say(rt, WITHOUT_MEMORY),
        _ => {}
    }
}

/// Says on standard error why there are no words, and returns the exit code of that.
pub fn tell_wordless(rt: &HostRuntime, error: &io::Error) -> ExitCode {
    match error.kind() {
        io::ErrorKind::OutOfMemory => {
            say(rt, WITHOUT_MEMORY);
            ExitCode::from(MEMORY)
        }
        _ => {
            say(rt, "hazard: a word of the command line is no Unicode text");
            ExitCode::from(SYSTEM)
        }
    }
}

// One line. If standard error can't be written there is nobody to tell.
fn say(rt: &HostRuntime, line: &str) {
    let _ = eprintln!(rt; "{line}");
}

// That the output can't be written. A pipe whose reader has gone, as of `head`, has all that it wanted.
fn tell_unwritten(rt: &HostRuntime) {
    if !is_piped(rt) {
        say(rt, "hazard: standard output can't be written");
    }
}

// Whether standard output is a pipe.
fn is_piped(rt: &HostRuntime) -> bool {
    fs::read_link(rt, "/proc/self/fd/1").is_ok_and(|target| target
        .to_str()
        .is_some_and(|name| name.starts_with("pipe:")))
}

fn tell_usage(rt: &HostRuntime) {
    let _ = eprintln!(rt; "{USAGE}\nhazard {VERSION}; see the manual page hazard(1)");
}

// The line of the text that a refusal names, if it names one.
fn tell_line(rt: &HostRuntime, reached: Reached<'_>, read: FirstLines) {
    let Reached { place, name, line } = reached;
    if line == 0 {
        return;
    }
    let Ok(shown) = visible(rt.alloc(), name.as_bytes()) else {
        return;
    };
    if !is_plain(rt, name) {
        let _ = eprintln!(rt; "{shown}:{line}: (no plain file, so its line can't be shown)");
        return;
    }
    let Some(text) = read_line(rt, name, line as usize, read) else {
        return;
    };
    let text = shown_of(text.as_slice());
    let Ok(visible_text) = visible(rt.alloc(), text) else {
        return;
    };
    let _ = eprintln!(rt; "{shown}:{line}: {visible_text}");
    if place == Place::Second && is_assumption(text) {
        say(rt, ASSUMPTIONS);
    }
}

// Whether a line of a script begins as an assumption does.
fn is_assumption(line: &[u8]) -> bool {
    let line = line.trim_ascii_start();
    line.starts_with(b"order ") || line.starts_with(b"ideal ")
}

// Whether a file can be read once more. A pipe gives its bytes only once, and opening it again may wait for ever.
fn is_plain(rt: &HostRuntime, name: &str) -> bool {
    fs::metadata(rt, name).is_ok_and(|found| found.is_file())
}

// The name of the file that was not read, and why.
fn tell_unread(rt: &HostRuntime, name: &str) {
    if name.is_empty() {
        say(rt, "hazard: the name of a file is empty");
        return;
    }
    let Ok(shown) = visible(rt.alloc(), name.as_bytes()) else {
        return;
    };
    if let Err(error) = fs::open(rt, name).and_then(|mut file| file.read(&mut [0])) {
        let _ = eprintln!(rt; "{shown}: {error}");
    }
}

// The name of the file that has too many bytes.
fn tell_long(rt: &HostRuntime, name: &str) {
    let Ok(shown) = visible(rt.alloc(), name.as_bytes()) else {
        return;
    };
    let _ = eprintln!(rt; "{shown}: more than {MOST} bytes");
}

// The first bytes of the line with a number, which is counted from 1. The file is read part by part, since only that line is
// wanted of it, and from behind its first lines if the line stands there.
fn read_line(rt: &HostRuntime, name: &str, number: usize, first: FirstLines) -> Option<Vec<u8>> {
    let mut file = fs::open(rt, name).ok()?;
    let mut part = [0; READ_SIZE];
    let mut before = number.checked_sub(1)?;
    if let Some(behind) = before.checked_sub(first.lines) {
        file.seek(SeekFrom::Start(first.bytes as u64)).ok()?;
        before = behind;
    }
    let mut line = Vec::new(rt.alloc());
    for _read in 0..MOST {
        let count = file.read(&mut part).ok()?;
        let bytes = &part[..count];
        let feeds = count_line_feeds(bytes);
        if feeds < before && count != 0 {
            before -= feeds;
        } else {
            let rest = behind_line_feeds(bytes, before)?;
            before = 0;
            if count == 0 || add_line(&mut line, rest).ok()? {
                return Some(line);
            }
        }
    }
    None
}

// How many line feeds bytes have.
fn count_line_feeds(bytes: &[u8]) -> usize {
    let mut feeds = 0usize;
    for piece in bytes.chunks(PIECE_SIZE) {
        feeds = feeds.wrapping_add(count_few_line_feeds(piece) as usize);
    }
    feeds
}

// How many line feeds a piece of less than 256 bytes has. They are counted in one byte, so that many are counted at once.
fn count_few_line_feeds(piece: &[u8]) -> u8 {
    let mut feeds = 0u8;
    for byte in piece {
        feeds = feeds.wrapping_add(u8::from(*byte == b'\n'));
    }
    feeds
}

// What stands behind the first so many line feeds, if there are as many.
fn behind_line_feeds(bytes: &[u8], feeds: usize) -> Option<&[u8]> {
    let mut rest = bytes;
    for _feed in 0..feeds {
        let place = rest.iter().position(|byte| *byte == b'\n')?;
        rest = &rest[place + 1..];
    }
    Some(rest)
}

// Adds the bytes before the first line feed. Returns whether the line ends there, or is longer than what is shown.
fn add_line(line: &mut Vec<u8>, bytes: &[u8]) -> Result<bool, AllocError> {
    let end = bytes.iter().position(|byte| *byte == b'\n');
    let room = (SHOWN + 1).saturating_sub(line.len());
    let count = end.unwrap_or(bytes.len()).min(room);
    line.extend_from_slice(&bytes[..count])?;
    Ok(end.is_some() || line.len() > SHOWN)
}

// What is shown of a line of which at least one byte more is given, if it has more.
fn shown_of(line: &[u8]) -> &[u8] {
    let line = line.strip_suffix(b"\r").unwrap_or(line);
    line.get(..SHOWN).unwrap_or(line)
}

// Bytes as text in which no byte acts on a terminal.
fn visible(alloc: Global, bytes: &[u8]) -> Result<String, AllocError> {
    let mut text = String::new(alloc);
    for byte in bytes {
        match byte {
            0x20..=0x7E => text.push(char::from(*byte))?,
            _ => text.push_str(format!(in alloc; "\\x{byte:02x}")?.as_str())?,
        }
    }
    Ok(text)
}
