// What the passes over the statements of a text of patterns return.

ghost use Rattle.std.specs.Prelude.{◌≡◌, map};
ghost use Rattle.hz_line.specs.Statement.{first_passing_line};
ghost use Rattle.hz_pattern_text.specs.PatternResolution.{pattern_resolution_of, numbered_pattern_resolutions};
ghost use Rattle.hz_pattern_text.specs.PatternFault.{held_assignments, holds_unknown, has_malformed_bit, is_hold};
ghost use Rattle.hz_pattern_text.specs.PatternRules.{first_late_hold, late_hold_behind, beyond_behind};
ghost use Rattle.hz_pattern_text.specs.PatternText.{held_first, behind_hold};

use crate::statement::{Entry, Held};
use crate::value::MAX_PATTERNS;
use crate::word::is_bits_word;
use hz_text::{Allowed, Assigned, any_unknown, any_without_bit};

// What a statement assigns.
pub(crate) fn assignments_in<'h>(held: &'h Held) -> &'h [Assigned]
    ensures { result.now ≡ held_assignments (pattern_resolution_of held.now) }
{
    match held {
        Held::Hold(assigned) => assigned.as_slice(),
        Held::Pattern(_, _) => &[],
    }
}

// Whether the statement holds what is no gate.
pub(crate) fn holds_unknown(held: &Held, inputs: u32) -> bool
    ensures { result ≡ holds_unknown inputs (pattern_resolution_of held.now) }
{
    any_unknown(assignments_in(held), Allowed::Gates, inputs)
}

// Whether the statement has a word that is to be a bit, or as many bits as there are inputs, and is not.
pub(crate) fn lacks_bit(held: &Held, inputs: u32) -> bool
    ensures { result ≡ has_malformed_bit inputs (pattern_resolution_of held.now) }
{
    match held {
        Held::Hold(assigned) => any_without_bit(assigned.as_slice()),
        Held::Pattern(from, to) => {
            !is_bits_word(from, inputs as usize) || !is_bits_word(to, inputs as usize)
        }
    }
}

// The line of the first statement that holds gates and is not the first of all, where so many patterns stand in front.
pub(crate) fn first_late_hold(entries: &[Entry], before: usize) -> Option<u32>
    ensures { result ≡ late_hold_behind before (numbered_pattern_resolutions entries.now) }
{
    if before == 0 {
        first_later_hold(entries)
    } else {
        first_hold(entries)
    }
}

// The line of the first statement that holds gates, behind the first one.
fn first_later_hold(entries: &[Entry]) -> Option<u32>
    ensures { result ≡ first_late_hold (numbered_pattern_resolutions entries.now) }
{
    let [_, later @ ..] = entries else {
        return None;
    };
    first_hold(later)
}

// The line of the first statement that holds gates.
fn first_hold(entries: &[Entry]) -> Option<u32>
    ensures { result ≡ first_passing_line is_hold (numbered_pattern_resolutions entries.now) }
{
    for entry in entries {
        if is_hold(&entry.held) {
            return Some(entry.line);
        }
    }
    None
}

// Whether the statement holds gates.
fn is_hold(held: &Held) -> bool
    ensures { result ≡ is_hold (pattern_resolution_of held.now) }
{
    matches!(held, Held::Hold(_))
}

// What the first statement assigns.
pub(crate) fn held_first<'h>(entries: &'h [Entry]) -> &'h [Assigned]
    ensures { result.now ≡ held_first (numbered_pattern_resolutions entries.now) }
{
    let [first, ..] = entries else {
        return &[];
    };
    assignments_in(&first.held)
}

// The statements behind the first one, if that holds gates, else all.
pub(crate) fn behind_hold<'h, 't>(entries: &'h [Entry<'t>]) -> &'h [Entry<'t>]
    ensures { numbered_pattern_resolutions result.now
        ≡ behind_hold (numbered_pattern_resolutions entries.now) }
{
    let [first, later @ ..] = entries else {
        return entries;
    };
    if is_hold(&first.held) { later } else { entries }
}

// The line of the pattern past the most, if only the first statement of all holds gates, and so many patterns stand in front.
pub(crate) fn line_beyond(entries: &[Entry], before: usize) -> Option<u32>
    ensures { result ≡ beyond_behind before (numbered_pattern_resolutions entries.now) }
{
    let entry = behind_hold(entries).get(MAX_PATTERNS.saturating_sub(before))?;
    Some(entry.line)
}
