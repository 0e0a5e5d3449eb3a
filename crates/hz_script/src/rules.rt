// What the passes over the statements of a script return.

ghost use Rattle.std.specs.Prelude.{◌≡◌, IfOk};
ghost use Rattle.hz_line.specs.Statement.{first_passing_line};
ghost use Rattle.hz_script.specs.Resolution.{resolution_of, numbered_resolutions};
ghost use Rattle.hz_script.specs.ScriptFault.{has_unknown, is_start};
ghost use Rattle.hz_script.specs.ScriptRules.{least_missing, first_out_of_order, last_beyond};

use crate::script::MAX_CHANGES;
use crate::statement::{Entry, Held, Keyword};
use hz_core::Memory;
use hz_text::{Allowed, any_unknown, least_unassigned};
use std::alloc::Global;

// Whether the statement assigns no node, or in a change no input.
pub(crate) fn has_unknown(held: &Held, inputs: u32) -> bool
    ensures { result ≡ has_unknown inputs (resolution_of held.now) }
{
    match held.keyword {
        Keyword::Start => any_unknown(held.assigned.as_slice(), Allowed::Nodes, inputs),
        Keyword::Change => any_unknown(held.assigned.as_slice(), Allowed::Inputs, inputs),
    }
}

// The least primary input that the first statement, if it is a start, does not assign.
pub(crate) fn least_missing(
    alloc: Global,
    entries: &[Entry],
    primary_inputs: u32,
) -> Result<Option<u32>, Memory>
    ensures { IfOk result
        (λ missing. missing ≡ least_missing primary_inputs (numbered_resolutions entries.now)) }
{
    let [first, ..] = entries else {
        return Ok(None);
    };
    match first.held.keyword {
        Keyword::Start => least_unassigned(alloc, first.held.assigned.as_slice(), primary_inputs),
        Keyword::Change => Ok(None),
    }
}

// The line of the first statement that breaks the order.
pub(crate) fn first_out_of_order(entries: &[Entry]) -> Option<u32>
    ensures { result ≡ first_out_of_order (numbered_resolutions entries.now) }
{
    let [first, later @ ..] = entries else {
        return Some(0);
    };
    match first.held.keyword {
        Keyword::Start => first_start(later),
        Keyword::Change => Some(first.line),
    }
}

// The line of the first start.
fn first_start(entries: &[Entry]) -> Option<u32>
    ensures { result ≡ first_passing_line is_start (numbered_resolutions entries.now) }
{
    for entry in entries {
        match entry.held.keyword {
            Keyword::Start => return Some(entry.line),
            Keyword::Change => {}
        }
    }
    None
}

// The line of the change past the most, if the first statement alone is no change.
pub(crate) fn line_beyond(entries: &[Entry]) -> Option<u32>
    ensures { result ≡ last_beyond (numbered_resolutions entries.now) }
{
    let entry = entries.get(MAX_CHANGES + 1)?;
    Some(entry.line)
}
