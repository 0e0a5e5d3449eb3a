//! How a call ends, and how far it came.

use hz_outside::Place;
use hz_refusal::Status;

/// How a call ends, and how far it came, if it came to a file.
#[derive(Clone, Copy, Debug)]
pub struct Answer<'w> {
    pub status: Status,
    pub reached: Option<Reached<'w>>,
}

/// The file that a call worked on last, by its place and its name, and the line of its text that a refusal names, 0 if it names none.
#[derive(Clone, Copy, Debug)]
pub struct Reached<'w> {
    pub place: Place,
    pub name: &'w str,
    pub line: u32,
}
