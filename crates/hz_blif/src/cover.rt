// A cover while its rows are read.

ghost use Rattle.std.specs.Prelude.{◌≡◌, ◌+◌, ◌<◌, ◌^◌, ◌∷◌, ◌++◌, ◌||◌, ◌&&◌, [], IfOk, IfSome, true, List, OnOk, is_some, length, not, ℕ};
ghost use Rattle.std.specs.List.{list_all};
ghost use Rattle.std.specs.Str.{bytes_eq};
ghost use Rattle.hz_line.specs.Statement.{Numbered};
ghost use Rattle.hz_blif.specs.Cover.{first_column, has_literal, is_column, is_plane_byte, is_row, last_token, plane_of};
ghost use Rattle.hz_blif.specs.Reading.{KeepsPlanes, KeepsRows, bytes_of, excess_of, planes_in};
ghost use Rattle.hz_blif.specs.Text.{is_some_list};

use hz_core::{MAX_PINS, Memory};
use std::alloc::Global;

/// A cover: the names of its pins and of its output, by their numbers, and its rows so far.
#[derive(Drop)]
pub(crate) struct Cover<'t> {
    /// The line of its `.names`.
    pub(crate) line: u32,
    pub(crate) pins: Vec<u32>,
    pub(crate) output: u32,
    rows: Rows<'t>,
}

/// What is kept of the rows of a cover.
#[derive(Drop)]
pub(crate) struct Rows<'t> {
    /// Their planes, no more than a cover may have rows.
    planes: Vec<&'t [u8]>,
    count: u32,
    /// The last token of the first row.
    column: &'t [u8],
    /// Whether some row has no literal.
    has_bare: bool,
}

impl<'t> Cover<'t> {
    /// A cover without pins and rows.
    pub(crate) fn new(alloc: Global) -> Cover<'t>
        ensures { KeepsRows [] result.rows }
    {
        Cover {
            line: 0,
            pins: Vec::new(alloc),
            output: 0,
            rows: Rows::new(alloc),
        }
    }

    /// Begins anew, with the cover of a `.names` on this line. It keeps the room that it has.
    pub(crate) fn begin(&mut self, line: u32)
        ensures line { self.new.line ≡ line }
        ensures pins { self.new.pins.items ≡ [] }
        ensures rows { KeepsRows [] self.new.rows }
    {
        self.line = line;
        self.pins.clear();
        self.rows.clear();
    }

    /// Adds a row; whether it is a row of this cover.
    pub(crate) fn add_row(&mut self, tokens: &[&'t [u8]]) -> Result<bool, Memory>
        requires { self.old.rows.count + 1 < 2 ^ 32 }
        ensures pins { self.new.pins ≡ self.old.pins }
        ensures output { self.new.output ≡ self.old.output }
        ensures line { self.new.line ≡ self.old.line }
        ensures counted { self.new.rows.count ≡ self.old.rows.count + 1 }
        ensures right { IfOk result (λ right. (rows : List (Numbered (List (List ℕ)))) (line : ℕ)
            (names : List (List ℕ))
            → KeepsRows rows self.old.rows → length names ≡ length self.old.pins.items
            → right ≡ (is_row names (bytes_of tokens.now) && bytes_eq (last_token
            (bytes_of tokens.now))
            (first_column
            (rows ++ record { line = line; statement = bytes_of tokens.now } ∷ [])))) }
        ensures kept { IfOk result (λ right. right ≡ true
            → (rows : List (Numbered (List (List ℕ)))) (line : ℕ)
            → KeepsRows rows self.old.rows
            → KeepsRows (rows ++ record { line = line; statement = bytes_of tokens.now } ∷ [])
            self.new.rows) }
    {
        let pins = self.pins.len();
        self.rows.add(tokens, pins)
    }

    /// The planes of its rows, no more than a cover may have rows.
    pub(crate) fn planes(&self) -> &[&'t [u8]]
        ensures { result.now ≡ self.now.rows.planes.items }
    {
        self.rows.planes.as_slice()
    }

    /// Whether the output column is 1.
    pub(crate) fn column(&self) -> bool
        ensures { result ≡ bytes_eq self.now.rows.column.now (49 ∷ []) }
    {
        self.rows.column == b"1".as_slice()
    }

    /// Whether it is constant: it has no pins, no rows, or a row without a literal.
    pub(crate) fn is_constant(&self) -> bool
        ensures { (rows : List (Numbered (List (List ℕ)))) (names : List (List ℕ))
            → KeepsRows rows self.now.rows → length names ≡ length self.now.pins.items
            → result ≡ (not (is_some_list names) || not (is_some_list rows) || not
            (list_all has_literal (planes_in rows))) }
    {
        self.pins.is_empty() || self.rows.count == 0 || self.rows.has_bare
    }

    /// How many pins it has, or else how many rows, if those are more than a gate takes.
    pub(crate) fn excess(&self) -> Option<u32>
        requires { length self.now.pins.items < 2 ^ 32 }
        ensures { result ≡ excess_of (length self.now.pins.items) self.now.rows.count }
    {
        let pins = self.pins.len();
        if pins > MAX_PINS {
            Some(pins as u32)
        } else if self.rows.count as usize > MAX_PINS {
            Some(self.rows.count)
        } else {
            None
        }
    }
}

impl<'t> Rows<'t> {
    // No rows.
    fn new(alloc: Global) -> Rows<'t>
        ensures { KeepsRows [] result }
    {
        Rows {
            planes: Vec::new(alloc),
            count: 0,
            column: &[],
            has_bare: false,
        }
    }

    // Forgets all rows.
    fn clear(&mut self)
        ensures { KeepsRows [] self.new }
    {
        self.planes.clear();
        self.count = 0;
        self.column = &[];
        self.has_bare = false;
    }

    // Adds a row of a cover with so many pins; whether it is as said.
    fn add(&mut self, tokens: &[&'t [u8]], pins: usize) -> Result<bool, Memory>
        requires { self.old.count + 1 < 2 ^ 32 }
        ensures counted { self.new.count ≡ self.old.count + 1 }
        ensures right { IfOk result (λ right. (rows : List (Numbered (List (List ℕ)))) (line : ℕ)
            (names : List (List ℕ))
            → KeepsRows rows self.old → length names ≡ pins
            → right ≡ (is_row names (bytes_of tokens.now) && bytes_eq (last_token
            (bytes_of tokens.now))
            (first_column
            (rows ++ record { line = line; statement = bytes_of tokens.now } ∷ [])))) }
        ensures kept { IfOk result (λ right. right ≡ true
            → (rows : List (Numbered (List (List ℕ)))) (line : ℕ)
            → KeepsRows rows self.old
            → KeepsRows (rows ++ record { line = line; statement = bytes_of tokens.now } ∷ [])
            self.new) }
    {
        self.count_row(tokens);
        let Some(plane) = self.plane_of(tokens, pins) else {
            return Ok(false);
        };
        self.push(plane)?;
        Ok(true)
    }

    // Counts a row, and keeps the column of the first one.
    fn count_row(&mut self, tokens: &[&'t [u8]])
        requires { self.old.count + 1 < 2 ^ 32 }
        ensures counted { self.new.count ≡ self.old.count + 1 }
        ensures column { (rows : List (Numbered (List (List ℕ)))) (line : ℕ)
            → self.old.count ≡ length rows → self.old.column.now ≡ first_column rows
            → self.new.column.now ≡ first_column (rows
            ++ record { line = line; statement = bytes_of tokens.now } ∷ []) }
        ensures planes { self.new.planes ≡ self.old.planes }
        ensures bare { self.new.has_bare ≡ self.old.has_bare }
    {
        if self.count == 0 {
            self.column = last_token(tokens);
        }
        self.count += 1;
    }

    // The plane of a row, if it is as said and its column is that of the first row.
    fn plane_of(&self, tokens: &[&'t [u8]], pins: usize) -> Option<&'t [u8]>
        ensures row { (names : List (List ℕ)) → length names ≡ pins
            → is_some result ≡ (is_row names (bytes_of tokens.now)
            && bytes_eq (last_token (bytes_of tokens.now)) self.now.column.now) }
        ensures plane { IfSome result (λ plane. plane.now ≡ plane_of (bytes_of tokens.now)) }
    {
        let plane = plane_of(tokens, pins)?;
        if last_token(tokens) == self.column {
            Some(plane)
        } else {
            None
        }
    }

    // Keeps a plane, if there is room for it.
    fn push(&mut self, plane: &'t [u8]) -> Result<(), Memory>
        ensures counted { self.new.count ≡ self.old.count }
        ensures column { self.new.column ≡ self.old.column }
        ensures kept { OnOk result ((planes : List (List ℕ))
            → KeepsPlanes planes self.old → KeepsPlanes (planes ++ plane.now ∷ []) self.new) }
    {
        self.has_bare = self.has_bare | !has_literal(plane);
        if self.planes.len() >= MAX_PINS {
            return Ok(());
        }
        match self.planes.push(plane) {
            Ok(()) => Ok(()),
            Err(_) => Err(Memory),
        }
    }
}

// The last token, empty where there is none.
fn last_token<'t>(tokens: &[&'t [u8]]) -> &'t [u8]
    ensures { result.now ≡ last_token (bytes_of tokens.now) }
{
    match tokens.split_last() {
        Some((last, _)) => *last,
        None => &[],
    }
}

// The plane of a row, if the tokens are a row of a cover with so many pins: it is empty where there
// are none.
#[tactic(auto, using(crate::proofs::RowLemmas::row_alone, crate::proofs::RowLemmas::row_not_alone, crate::proofs::RowLemmas::row_of_plane, crate::proofs::RowLemmas::row_without_pins))]
fn plane_of<'t>(tokens: &[&'t [u8]], pins: usize) -> Option<&'t [u8]>
    ensures row { (names : List (List ℕ)) → length names ≡ pins
        → is_row names (bytes_of tokens.now) ≡ is_some result }
    ensures plane { IfSome result (λ plane. plane.now ≡ plane_of (bytes_of tokens.now)) }
{
    match tokens {
        [column] => {
            if pins == 0 && is_column(*column) {
                Some(&[])
            } else {
                None
            }
        }
        [plane, column] => {
            if pins > 0 && plane.len() == pins && is_plane(*plane) && is_column(*column) {
                Some(*plane)
            } else {
                None
            }
        }
        _ => None,
    }
}

// Whether a token is an output column.
fn is_column(token: &[u8]) -> bool
    ensures { result ≡ is_column token.now }
{
    token == b"0".as_slice() || token == b"1".as_slice()
}

// Whether each byte is one of a plane.
fn is_plane(plane: &[u8]) -> bool
    ensures { result ≡ list_all is_plane_byte plane.now }
{
    for byte in plane {
        if !is_plane_byte(*byte) {
            return false;
        }
    }
    true
}

// Whether the byte may stand in a plane.
#[inline(always)]
fn is_plane_byte(byte: u8) -> bool
    ensures { result ≡ is_plane_byte byte }
{
    byte == b'0' || byte == b'1' || byte == b'-'
}

// Whether a plane has a literal.
fn has_literal(plane: &[u8]) -> bool
    ensures { result ≡ has_literal plane.now }
{
    for byte in plane {
        if *byte != b'-' {
            return true;
        }
    }
    false
}
