// The order of the statements: a start before the first change, assumptions before the first change, and one start if a
// start may not stand again.

ghost use Rattle.std.specs.Prelude.{◌≡◌, false};
ghost use Rattle.hz_timing.specs.TimedResolution.{timed_resolution_of, numbered_timed_resolutions};
ghost use Rattle.hz_timing.specs.TimedFault.{is_timed_start, is_timed_change, has_begun};
ghost use Rattle.hz_timing.specs.TimedRules.{misplaced_behind, misplaced_from, first_out_of_order};

use crate::statement::{TimedEntry, TimedHeld};

// The line that breaks the order, where a start may stand again or not.
pub(crate) fn first_out_of_order(entries: &[TimedEntry], again: bool) -> Option<u32>
    ensures { result ≡ first_out_of_order again (numbered_timed_resolutions entries.now) }
{
    if has_begun(entries) {
        first_misplaced(entries, again)
    } else {
        Some(0)
    }
}

// Whether some statement is a start or a change.
fn has_begun(entries: &[TimedEntry]) -> bool
    ensures { result ≡ has_begun (numbered_timed_resolutions entries.now) }
{
    for entry in entries {
        if is_start(&entry.held) | is_change(&entry.held) {
            return true;
        }
    }
    false
}

// The first line of a statement that is out of order.
fn first_misplaced(entries: &[TimedEntry], again: bool) -> Option<u32>
    ensures { result ≡ misplaced_from again false false (numbered_timed_resolutions entries.now) }
{
    let mut started = false;
    let mut changed = false;
    for entry in entries {
        if is_misplaced(&entry.held, again, started, changed) {
            return Some(entry.line);
        }
        started |= is_start(&entry.held);
        changed |= is_change(&entry.held);
    }
    None
}

// Whether a statement is out of order, where a start stands before it or not, and a change stands before it or not.
fn is_misplaced(held: &TimedHeld, again: bool, started: bool, changed: bool) -> bool
    ensures { result ≡ misplaced_behind again started changed (timed_resolution_of held.now) }
{
    match held {
        TimedHeld::Order(_, _, _) => changed,
        TimedHeld::Ideal(_) => changed,
        TimedHeld::Start(_) => !again && started,
        TimedHeld::Change(_) => !started,
    }
}

// Whether the statement is a start.
pub(crate) fn is_start(held: &TimedHeld) -> bool
    ensures { result ≡ is_timed_start (timed_resolution_of held.now) }
{
    matches!(held, TimedHeld::Start(_))
}

// Whether the statement is a change.
pub(crate) fn is_change(held: &TimedHeld) -> bool
    ensures { result ≡ is_timed_change (timed_resolution_of held.now) }
{
    matches!(held, TimedHeld::Change(_))
}
