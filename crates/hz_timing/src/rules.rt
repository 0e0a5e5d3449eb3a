// What the passes over the statements return, but for their order.

ghost use Rattle.std.specs.Prelude.{◌≡◌, ◌≤◌, ◌-◌, true, Some, IfOk, if◌then◌else◌};
ghost use Rattle.hz_timing.specs.TimedResolution.{timed_keyword_by, timed_resolution_of, numbered_timed_resolutions};
ghost use Rattle.hz_timing.specs.TimedFault.{timed_assignments, counted, counts_behind, gate_into, names_missing};
ghost use Rattle.hz_timing.specs.TimedRules.{left_out, left_out_by_any, least_missing, is_of, line_from, first_beyond};

use crate::keyword::TimedKeyword;
use crate::order::{is_change, is_start};
use crate::statement::{TimedEntry, TimedHeld};
use hz_core::Memory;
use hz_lists::lesser;
use hz_net::{Net, VarKind};
use hz_script::MAX_CHANGES;
use hz_text::{Allowed, Assigned, any_unknown, least_unassigned};
use std::alloc::Global;

/// The most orders.
const MAX_ORDERS: usize = 1000;

/// The most wires without delay.
const MAX_IDEALS: usize = 256;

/// The most starts.
const MAX_STARTS: usize = 256;

// What a statement assigns.
pub(crate) fn assignments_in<'h>(held: &'h TimedHeld) -> &'h [Assigned]
    ensures { result.now ≡ timed_assignments (timed_resolution_of held.now) }
{
    match held {
        TimedHeld::Start(assigned) => assigned.as_slice(),
        TimedHeld::Change(assigned) => assigned.as_slice(),
        _ => &[],
    }
}

// Whether the statement names what is not there.
pub(crate) fn names_unknown(net: &Net, held: &TimedHeld) -> bool
    ensures { result ≡ names_missing net.now (timed_resolution_of held.now) }
{
    let inputs = net.circuit().inputs();
    match held {
        TimedHeld::Order(first, second, _) => {
            gate_into(net, *first).is_none() || gate_into(net, *second).is_none()
        }
        TimedHeld::Ideal(wire) => gate_into(net, *wire).is_none(),
        TimedHeld::Start(assigned) => any_unknown(assigned.as_slice(), Allowed::Nodes, inputs),
        TimedHeld::Change(assigned) => any_unknown(assigned.as_slice(), Allowed::Inputs, inputs),
    }
}

// The gate into which a wire goes, if the variable is there and is a wire.
pub(crate) fn gate_into(net: &Net, variable: Option<u32>) -> Option<u32>
    ensures { result ≡ gate_into net.now variable }
{
    match variable {
        None => None,
        Some(variable) => gate_of(net, variable),
    }
}

// The gate into which a variable goes, if it is there and is a wire.
fn gate_of(net: &Net, variable: u32) -> Option<u32>
    ensures { result ≡ gate_into net.now (Some variable) }
{
    if net.len() <= variable {
        return None;
    }
    match net.kind_of(variable) {
        VarKind::Input { .. } => None,
        VarKind::Gate { .. } => None,
        VarKind::Wire { gate, .. } => Some(gate),
    }
}

// The least primary input that some start leaves out. If a start may not stand again, those behind the first start or change
// do not count.
pub(crate) fn least_missing(
    alloc: Global,
    entries: &[TimedEntry],
    again: bool,
    primary_inputs: u32,
) -> Result<Option<u32>, Memory>
    ensures { IfOk result
        (λ missing. missing ≡ least_missing primary_inputs
        (counted again (numbered_timed_resolutions entries.now))) }
{
    let least = least_left_out(alloc, entries, again, primary_inputs)?;
    if least < primary_inputs {
        Ok(Some(least))
    } else {
        Ok(None)
    }
}

// The least of so many inputs that some start leaves out, or that many. What a start leaves out bounds the work on the
// next one, so that all starts take time linear in the text.
fn least_left_out(
    alloc: Global,
    entries: &[TimedEntry],
    again: bool,
    inputs: u32,
) -> Result<u32, Memory>
    ensures { IfOk result
        (λ least. least ≡ left_out_by_any inputs
        (counted again (numbered_timed_resolutions entries.now))) }
{
    let mut least = inputs;
    for entry in entries {
        least = left_out(alloc, &entry.held, least)?;
        if !counts_behind(&entry.held, again) {
            return Ok(least);
        }
    }
    Ok(least)
}

// Whether a start behind this statement may be what leaves an input out.
fn counts_behind(held: &TimedHeld, again: bool) -> bool
    ensures { result ≡ counts_behind again (timed_resolution_of held.now) }
{
    match held {
        TimedHeld::Start(_) => again,
        TimedHeld::Change(_) => again,
        _ => true,
    }
}

// The least of so many inputs that a statement leaves out, if it is a start, or that many.
fn left_out(alloc: Global, held: &TimedHeld, inputs: u32) -> Result<u32, Memory>
    ensures { IfOk result (λ least. least ≡ left_out inputs (timed_resolution_of held.now)) }
{
    let TimedHeld::Start(assigned) = held else {
        return Ok(inputs);
    };
    let missing = least_unassigned(alloc, assigned.as_slice(), inputs)?;
    Ok(missing.unwrap_or(inputs))
}

// The first line that passes a limit.
pub(crate) fn line_beyond(entries: &[TimedEntry]) -> Option<u32>
    ensures { result ≡ first_beyond (numbered_timed_resolutions entries.now) }
{
    let order = line_behind(entries, TimedKeyword::Order, MAX_ORDERS);
    let ideal = line_behind(entries, TimedKeyword::Ideal, MAX_IDEALS);
    let start = line_behind(entries, TimedKeyword::Start, MAX_STARTS);
    let change = line_behind(entries, TimedKeyword::Change, MAX_CHANGES);
    lesser(order, lesser(ideal, lesser(start, change)))
}

// The line of the first statement with this keyword behind so many of them.
fn line_behind(entries: &[TimedEntry], keyword: TimedKeyword, most: usize) -> Option<u32>
    ensures { result ≡ line_from (is_of (timed_keyword_by keyword)) most
        (numbered_timed_resolutions entries.now) }
{
    let mut left = most;
    for entry in entries {
        let counts = is_of(&entry.held, keyword);
        if counts && left == 0 {
            return Some(entry.line);
        }
        left = left_after(left, counts);
    }
    None
}

// A number of statements that are left, after one that counts or does not.
fn left_after(left: usize, counts: bool) -> usize
    requires { counts ≡ true → 1 ≤ left }
    ensures { result ≡ (if counts then left - 1 else left) }
{
    if counts { left - 1 } else { left }
}

// Whether the statement begins with this keyword.
fn is_of(held: &TimedHeld, keyword: TimedKeyword) -> bool
    ensures { result ≡ is_of (timed_keyword_by keyword) (timed_resolution_of held.now) }
{
    match keyword {
        TimedKeyword::Order => matches!(held, TimedHeld::Order(_, _, _)),
        TimedKeyword::Ideal => matches!(held, TimedHeld::Ideal(_)),
        TimedKeyword::Start => is_start(held),
        TimedKeyword::Change => is_change(held),
    }
}
