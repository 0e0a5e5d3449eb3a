// The script of statements without a fault.

ghost use Rattle.std.specs.Prelude.{◌≡◌, true, ◌<◌, ◌++◌, ◌∷◌, [], length, map, All, IfOk, OnOk, option_to_list};
ghost use Rattle.hz_text.specs.Assignment.{assignment_to};
ghost use Rattle.hz_text.specs.Bits.{ArePairs};
ghost use Rattle.hz_timing.specs.TimedResolution.{timed_resolution_of, numbered_timed_resolutions};
ghost use Rattle.hz_script.specs.Limits.{most_changes};
ghost use Rattle.hz_timing.specs.TimedFault.{is_timed_change};
ghost use Rattle.hz_timing.specs.TimedReading.{IsSoundTimed, AreFewChanges, ArePartsPushed, changes_of};
ghost use Rattle.hz_timing.specs.TimedText.{assumption_of, assumptions_in, changes_up_to_start, parts_in, AreScriptsOf, IsScriptOfPart, IsTimedScriptBy};

use crate::order::is_start;
use crate::script::{Assumption, TimedScript};
use crate::statement::{TimedEntry, TimedHeld};
use hz_core::Memory;
use hz_orders::Order;
use hz_script::Script;
use hz_text::{Assigned, bits_of, read_pairs};
use std::alloc::Global;

// The script of statements: their assumptions, and a script for each start.
pub(crate) fn build(
    alloc: Global,
    nodes: u32,
    entries: &[TimedEntry],
) -> Result<TimedScript, Memory>
    requires few { AreFewChanges (numbered_timed_resolutions entries.now) }
    requires sound { All (λ entry. IsSoundTimed nodes (timed_resolution_of entry.held)) entries.now }
    ensures { IfOk result (IsTimedScriptBy nodes (numbered_timed_resolutions entries.now)) }
{
    let assumptions = build_assumptions(alloc, entries)?;
    let parts = build_parts(alloc, nodes, entries)?;
    Ok(TimedScript::of(assumptions, parts))
}

// The assumptions of statements, in their order.
fn build_assumptions(alloc: Global, entries: &[TimedEntry]) -> Result<Vec<Assumption>, Memory>
    ensures { IfOk result
        (λ assumptions. assumptions.items ≡ assumptions_in
        (numbered_timed_resolutions entries.now)) }
{
    let mut assumptions = Vec::new(alloc);
    for entry in entries {
        push_assumption(&mut assumptions, &entry.held)?;
    }
    Ok(assumptions)
}

// Adds the assumption that a statement is, if it is one.
fn push_assumption(assumptions: &mut Vec<Assumption>, held: &TimedHeld) -> Result<(), Memory>
    ensures { OnOk result
        (assumptions.new.items ≡ assumptions.old.items
        ++ option_to_list (assumption_of (timed_resolution_of held.now))) }
{
    if let Some(assumption) = assumption_of(held) {
        assumptions.push(assumption)?;
    }
    Ok(())
}

// The assumption that a statement is, if it is one.
fn assumption_of(held: &TimedHeld) -> Option<Assumption>
    ensures { result ≡ assumption_of (timed_resolution_of held.now) }
{
    match held {
        TimedHeld::Order(Some(first), Some(second), Some(number)) => {
            Some(Assumption::Order(Order {
                first: *first,
                second: *second,
                nth: *number as u64,
            }))
        }
        TimedHeld::Ideal(Some(wire)) => Some(Assumption::Ideal(*wire)),
        _ => None,
    }
}

// The scripts of statements, one for each start.
fn build_parts(alloc: Global, nodes: u32, entries: &[TimedEntry]) -> Result<Vec<Script>, Memory>
    requires few { AreFewChanges (numbered_timed_resolutions entries.now) }
    requires sound { All (λ entry. IsSoundTimed nodes (timed_resolution_of entry.held)) entries.now }
    ensures { IfOk result
        (λ parts. AreScriptsOf nodes (parts_in (numbered_timed_resolutions entries.now)) parts.items) }
{
    let mut parts = Vec::new(alloc);
    for (place, entry) in entries.iter().enumerate() {
        push_part(&mut parts, nodes, &entry.held, &entries[place + 1..])?;
    }
    Ok(parts)
}

// Adds the script that begins with a statement, if it is a start; these statements are behind it.
fn push_part(
    parts: &mut Vec<Script>,
    nodes: u32,
    held: &TimedHeld,
    later: &[TimedEntry],
) -> Result<(), Memory>
    requires held { IsSoundTimed nodes (timed_resolution_of held.now) }
    requires few { AreFewChanges (numbered_timed_resolutions later.now) }
    requires sound { All (λ entry. IsSoundTimed nodes (timed_resolution_of entry.held)) later.now }
    ensures { OnOk result
        (ArePartsPushed nodes (timed_resolution_of held.now)
        (changes_up_to_start (numbered_timed_resolutions later.now)) parts.old.items parts.new.items) }
{
    let TimedHeld::Start(assigned) = held else {
        return Ok(());
    };
    let alloc = *parts.allocator();
    let script = build_part(alloc, nodes, assigned.as_slice(), later)?;
    parts.push(script)?;
    Ok(())
}

// The script of a start, and of the changes up to the next one.
fn build_part(
    alloc: Global,
    nodes: u32,
    assigned: &[Assigned],
    later: &[TimedEntry],
) -> Result<Script, Memory>
    requires start { ArePairs nodes assigned.now }
    requires few { AreFewChanges (numbered_timed_resolutions later.now) }
    requires sound { All (λ entry. IsSoundTimed nodes (timed_resolution_of entry.held)) later.now }
    ensures { IfOk result
        (IsScriptOfPart nodes
        (record {
          start = assigned.now;
          changes = changes_up_to_start (numbered_timed_resolutions later.now);
        })) }
{
    let start = bits_of(alloc, assigned, nodes)?;
    let mut script = Script::of(alloc, start);
    let mut pairs = Vec::new(alloc);
    add_changes(&mut script, later, &mut pairs)?;
    Ok(script)
}

// Adds the changes up to the next start.
fn add_changes(
    script: &mut Script,
    entries: &[TimedEntry],
    pairs: &mut Vec<(u32, bool)>,
) -> Result<(), Memory>
    requires none { script.old.changes ≡ [] }
    requires few { AreFewChanges (numbered_timed_resolutions entries.now) }
    requires sound { All
        (λ entry. IsSoundTimed (length script.old.start) (timed_resolution_of entry.held)) entries.now }
    ensures start { OnOk result (script.new.start ≡ script.old.start) }
    ensures changes { OnOk result
        (map (map assignment_to) script.new.changes
        ≡ map (λ numbered. numbered.statement.assigned)
        (changes_up_to_start (numbered_timed_resolutions entries.now))) }
{
    for entry in entries {
        if is_start(&entry.held) {
            return Ok(());
        }
        add_if_change(script, &entry.held, pairs)?;
    }
    Ok(())
}

// Adds the change that a statement is, if it is one.
fn add_if_change(
    script: &mut Script,
    held: &TimedHeld,
    pairs: &mut Vec<(u32, bool)>,
) -> Result<(), Memory>
    requires few { is_timed_change (timed_resolution_of held.now) ≡ true →
        length script.old.changes < most_changes }
    requires sound { IsSoundTimed (length script.old.start) (timed_resolution_of held.now) }
    ensures start { OnOk result (script.new.start ≡ script.old.start) }
    ensures changes { OnOk result
        (map (map assignment_to) script.new.changes
        ≡ map (map assignment_to) script.old.changes
        ++ changes_of (timed_resolution_of held.now)) }
{
    let TimedHeld::Change(assigned) = held else {
        return Ok(());
    };
    push_change(script, assigned.as_slice(), pairs)?;
    Ok(())
}

// Adds a change that assigns this.
fn push_change(
    script: &mut Script,
    assigned: &[Assigned],
    pairs: &mut Vec<(u32, bool)>,
) -> Result<(), Memory>
    requires few { length script.old.changes < most_changes }
    requires sound { ArePairs (length script.old.start) assigned.now }
    ensures start { OnOk result (script.new.start ≡ script.old.start) }
    ensures changes { OnOk result
        (map (map assignment_to) script.new.changes
        ≡ map (map assignment_to) script.old.changes ++ assigned.now ∷ []) }
{
    read_pairs(assigned, pairs)?;
    script.add_change(pairs.as_slice())?;
    Ok(())
}
