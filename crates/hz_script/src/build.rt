// The script of statements without a fault.

ghost use Rattle.std.specs.Prelude.{◌≡◌, ◌<◌, ◌≤◌, [], length, map, All, IfOk, OnOk};
ghost use Rattle.hz_text.specs.Assignment.{assignment_to};
ghost use Rattle.hz_script.specs.Resolution.{resolution_of, numbered_resolutions};
ghost use Rattle.hz_script.specs.ScriptReading.{IsSound};
ghost use Rattle.hz_script.specs.ScriptText.{IsScriptOf};
ghost use Rattle.hz_script.specs.Limits.{most_changes};

use crate::script::Script;
use crate::statement::Entry;
use hz_core::Memory;
use hz_text::{bits_of, read_pairs};
use std::alloc::Global;

// The script of statements: the first is the start, all others are changes.
pub(crate) fn build(alloc: Global, nodes: u32, entries: &[Entry]) -> Result<Script, Memory>
    requires some { 0 < length entries.now }
    requires few { length entries.now ≤ 10001 }
    requires sound { All (λ entry. IsSound nodes (resolution_of entry.held)) entries.now }
    ensures { IfOk result (IsScriptOf nodes (numbered_resolutions entries.now)) }
{
    let [first, later @ ..] = entries else {
        unreachable!();
    };
    let start = bits_of(alloc, first.held.assigned.as_slice(), nodes)?;
    let mut script = Script::of(alloc, start);
    let mut pairs = Vec::new(alloc);
    add_changes(&mut script, later, &mut pairs)?;
    Ok(script)
}

// Adds a change for each of these statements.
fn add_changes(
    script: &mut Script,
    entries: &[Entry],
    pairs: &mut Vec<(u32, bool)>,
) -> Result<(), Memory>
    requires none { script.old.changes ≡ [] }
    requires few { length entries.now ≤ most_changes }
    requires sound { All
        (λ entry. IsSound (length script.old.start) (resolution_of entry.held)) entries.now }
    ensures start { OnOk result (script.new.start ≡ script.old.start) }
    ensures changes { OnOk result
        (map (map assignment_to) script.new.changes
        ≡ map (λ numbered. numbered.statement.assigned) (numbered_resolutions entries.now)) }
{
    for entry in entries {
        read_pairs(entry.held.assigned.as_slice(), pairs)?;
        script.add_change(pairs.as_slice())?;
    }
    Ok(())
}
