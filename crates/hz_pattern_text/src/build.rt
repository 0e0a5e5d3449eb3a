// The patterns of statements without a fault.

ghost use Rattle.std.specs.Prelude.{◌≡◌, ◌≤◌, ◌*◌, ◌++◌, false, length, All, None, IfOk, OnOk};
ghost use Rattle.std.specs.List.{flat_map};
ghost use Rattle.hz_pattern_text.specs.Limits.{most_patterns};
ghost use Rattle.hz_pattern_text.specs.PatternInside.{patterns_in, statement_bits};
ghost use Rattle.hz_pattern_text.specs.PatternResolution.{pattern_resolution_of, numbered_pattern_resolutions};
ghost use Rattle.hz_pattern_text.specs.PatternFault.{has_malformed_bit};
ghost use Rattle.hz_pattern_text.specs.PatternRules.{AssignsBelow, rules_behind, ArePatternsBehind};
ghost use Rattle.hz_text.specs.Rules.{first_fault_in};

use crate::printed::Front;
use crate::rules::{behind_hold, held_first};
use crate::statement::{Entry, Held};
use crate::value::Patterns;
use crate::word::push_bits;
use hz_core::{Circuit, Memory};
use hz_text::bits_of;
use std::alloc::Global;

// The patterns of statements, behind those in front of them: the first statement of all may hold gates, all others are
// patterns.
pub(crate) fn build(
    alloc: Global,
    circuit: &Circuit,
    front: Front,
    entries: &[Entry],
) -> Result<Patterns, Memory>
    requires below { All (AssignsBelow (length circuit.now.names)) entries.now }
    requires clear { first_fault_in (rules_behind front.count circuit.now.inputs)
        (numbered_pattern_resolutions entries.now) ≡ None }
    requires few { front.count ≤ most_patterns }
    requires long { length front.bits.items ≡ front.count * (2 * circuit.now.inputs) }
    ensures { IfOk result
        (ArePatternsBehind (patterns_in front.count circuit.now.inputs front.bits.items)
        (length circuit.now.names) (numbered_pattern_resolutions entries.now)) }
{
    let held = bits_of(alloc, held_first(entries), circuit.nodes())?;
    let inputs = circuit.inputs();
    let patterns = behind_hold(entries);
    let count = front.count + patterns.len();
    let mut bits = front.bits;
    push_statements(&mut bits, patterns, inputs)?;
    Ok(Patterns::of(held, inputs as usize, count, bits))
}

// Adds the bits of patterns, one pattern after the other.
fn push_statements(bits: &mut Vec<bool>, entries: &[Entry], inputs: u32) -> Result<(), Memory>
    requires { All (λ entry. has_malformed_bit inputs (pattern_resolution_of entry.held) ≡ false)
        entries.now }
    ensures { OnOk result
        (bits.new.items
        ≡ bits.old.items
        ++ flat_map (λ entry. statement_bits inputs (pattern_resolution_of entry.held))
        entries.now) }
{
    let Some(more) = entries.len().checked_mul(2 * inputs as usize) else {
        return Err(Memory);
    };
    bits.reserve(more)?;
    for entry in entries {
        push_statement(bits, &entry.held, inputs)?;
    }
    Ok(())
}

// Adds the bits of a pattern.
fn push_statement(bits: &mut Vec<bool>, held: &Held, inputs: u32) -> Result<(), Memory>
    requires { has_malformed_bit inputs (pattern_resolution_of held.now) ≡ false }
    ensures { OnOk result
        (bits.new.items
        ≡ bits.old.items ++ statement_bits inputs (pattern_resolution_of held.now)) }
{
    match held {
        Held::Hold(_) => Ok(()),
        Held::Pattern(from, to) => {
            push_bits(bits, from, inputs as usize)?;
            push_bits(bits, to, inputs as usize)
        }
    }
}
