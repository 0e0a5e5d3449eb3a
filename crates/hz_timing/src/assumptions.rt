// The faults of assumptions, of which only a text without another fault is asked.

ghost use Rattle.std.specs.Prelude.{◌≡◌, [], Some, None, map, MatchResult};
ghost use Rattle.hz_line.specs.Statement.{first_passing_line};
ghost use Rattle.hz_timing.specs.TimedResolution.{timed_resolution_of, numbered_timed_resolutions};
ghost use Rattle.hz_timing.specs.TimedFault.{are_same, is_unpaired, lacks_number, are_one_assumption, is_stated};
ghost use Rattle.hz_timing.specs.TimedRules.{first_line_behind, first_assumption_fault};

use crate::fault::TimedFault;
use crate::rules::gate_into;
use crate::statement::{TimedEntry, TimedHeld};
use hz_net::Net;

// Whether the assumptions of statements are without a fault: one pass for each, in the order of their numbers.
pub(crate) fn check_assumptions(net: &Net, entries: &[TimedEntry]) -> Result<(), TimedFault>
    ensures { MatchResult result
        (λ _. first_assumption_fault net.now (numbered_timed_resolutions entries.now) ≡ None)
        (λ fault. first_assumption_fault net.now (numbered_timed_resolutions entries.now) ≡ Some fault) }
{
    if let Some(line) = first_unpaired(net, entries) {
        return Err(TimedFault::Wires { line });
    }
    if let Some(line) = first_without_number(entries) {
        return Err(TimedFault::Number { line });
    }
    if let Some(line) = first_stated(entries) {
        return Err(TimedFault::Again { line });
    }
    Ok(())
}

// The line of the first order whose wires are not two wires of one gate.
fn first_unpaired(net: &Net, entries: &[TimedEntry]) -> Option<u32>
    ensures { result ≡ first_passing_line (is_unpaired net.now)
        (numbered_timed_resolutions entries.now) }
{
    for entry in entries {
        if is_unpaired(net, &entry.held) {
            return Some(entry.line);
        }
    }
    None
}

// Whether the statement is an order whose wires are not two wires of one gate.
fn is_unpaired(net: &Net, held: &TimedHeld) -> bool
    ensures { result ≡ is_unpaired net.now (timed_resolution_of held.now) }
{
    let TimedHeld::Order(first, second, _) = held else {
        return false;
    };
    are_same(*first, *second) || !are_same(gate_into(net, *first), gate_into(net, *second))
}

// The line of the first order without a number.
fn first_without_number(entries: &[TimedEntry]) -> Option<u32>
    ensures { result ≡ first_passing_line lacks_number (numbered_timed_resolutions entries.now) }
{
    for entry in entries {
        if lacks_number(&entry.held) {
            return Some(entry.line);
        }
    }
    None
}

// Whether the statement is an order without a number.
fn lacks_number(held: &TimedHeld) -> bool
    ensures { result ≡ lacks_number (timed_resolution_of held.now) }
{
    match held {
        TimedHeld::Order(_, _, number) => number.is_none(),
        _ => false,
    }
}

// The line of the first assumption that an earlier line states. Assumptions stand before the changes, so there are few
// statements before one.
fn first_stated(entries: &[TimedEntry]) -> Option<u32>
    ensures { result ≡ first_line_behind is_stated [] (numbered_timed_resolutions entries.now) }
{
    for (place, entry) in entries.iter().enumerate() {
        if is_stated(&entry.held, &entries[..place]) {
            return Some(entry.line);
        }
    }
    None
}

// Whether the statement is an assumption that one of these states.
fn is_stated(held: &TimedHeld, before: &[TimedEntry]) -> bool
    ensures { result ≡ is_stated
        (map (λ entry. timed_resolution_of entry.held) before.now) (timed_resolution_of held.now) }
{
    match held {
        TimedHeld::Start(_) => false,
        TimedHeld::Change(_) => false,
        _ => states_any(held, before),
    }
}

// Whether the statement is the same assumption as one of these.
fn states_any(held: &TimedHeld, before: &[TimedEntry]) -> bool
    ensures { result ≡ is_stated
        (map (λ entry. timed_resolution_of entry.held) before.now) (timed_resolution_of held.now) }
{
    for entry in before {
        if are_one_assumption(held, &entry.held) {
            return true;
        }
    }
    false
}

// Whether two statements are the same assumption.
fn are_one_assumption(held: &TimedHeld, other: &TimedHeld) -> bool
    ensures { result ≡ are_one_assumption
        (timed_resolution_of held.now) (timed_resolution_of other.now) }
{
    match (held, other) {
        (
            TimedHeld::Order(first, second, number),
            TimedHeld::Order(other_first, other_second, other_number),
        ) => {
            are_same(*first, *other_first)
                && are_same(*second, *other_second)
                && are_same(*number, *other_number)
        }
        (TimedHeld::Ideal(wire), TimedHeld::Ideal(other_wire)) => are_same(*wire, *other_wire),
        _ => false,
    }
}

// Whether both numbers are there, and are the same.
fn are_same(one: Option<u32>, other: Option<u32>) -> bool
    ensures { result ≡ are_same one other }
{
    match (one, other) {
        (Some(one), Some(other)) => one == other,
        _ => false,
    }
}
