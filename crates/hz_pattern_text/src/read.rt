//! Reading patterns.

ghost use Rattle.std.specs.Prelude.{◌≡◌, ◌+◌, ◌*◌, ◌^◌, ◌≤◌, ◌⊎◌, None, length, All, IfOk, IfErr, IfSome, OnOk, IsErrOf, MatchResult};
ghost use Rattle.std.specs.Option.{option_map};
ghost use Rattle.hz_text.specs.declared.fault.TextFault.TheVariants as told;
ghost use Rattle.hz_pattern_text.specs.Limits.{most_patterns};
ghost use Rattle.hz_pattern_text.specs.PatternFault.{IsLeastPatternFault, IsPatternFaultless, IsPatternRefusal};
ghost use Rattle.hz_pattern_text.specs.PatternModel.{text_behind};
ghost use Rattle.hz_pattern_text.specs.PatternResolution.{numbered_pattern_resolutions, resolve_pattern_tokens};
ghost use Rattle.hz_pattern_text.specs.PatternRules.{AssignsBelow, rules_behind, fault_behind};
ghost use Rattle.hz_pattern_text.specs.PatternText.{IsPatternsValue, ArePatternsFor};
ghost use Rattle.hz_text.specs.Fault.{place_of};
ghost use Rattle.hz_text.specs.Rules.{IsChecked, IsFaultOrMemory, first_fault_of};
ghost use Rattle.hz_line.specs.Line.{most_text_bytes};
ghost use Rattle.hz_line.specs.OrThat.{OrThat};

use crate::build::build;
use crate::printed::Front;
use crate::reader::PatternReader;
use crate::statement::{Entry, Statements};
use crate::value::Patterns;
use hz_core::Circuit;
use hz_text::{TextFault, read_text};
use std::alloc::Global;

/// Reads patterns of a circuit: lines `from BITS to BITS`, each of which has a letter `0` or `1` for every input, cuts included,
/// in their order. Without inputs it is `-`. A first line `hold` with assignments `name = bit` may hold gates. Keywords may
/// be in any letter case. A text without statements is one without patterns.
///
/// It takes time linear in the text and the circuit, if the names are not chosen to collide. Besides the text it takes a
/// byte for each bit, and less than a hundred bytes for each line.
pub fn read_patterns(alloc: Global, circuit: &Circuit, text: &[u8]) -> Result<Patterns, TextFault>
    requires { length text.now ≤ most_text_bytes }
    ensures value { IfOk result (IsPatternsValue circuit.now text.now) }
    ensures usable { IfOk result (ArePatternsFor circuit.now) }
    ensures faultless { OnOk result (IsPatternFaultless circuit.now text.now) }
    ensures fault { IfErr result (IsPatternRefusal circuit.now text.now) }
    ensures exact { (fault : TextFault) → IsLeastPatternFault circuit.now text.now fault
        → IsErrOf result fault ⊎ IsErrOf result TextFault.Memory }
{
    let mut reader = PatternReader::new(alloc, circuit)?;
    reader.take_part(text)?;
    reader.finish()
}

// Reads what stands behind the first lines, and builds the patterns of both.
pub(crate) fn read_behind(
    alloc: Global,
    circuit: &Circuit,
    front: Front,
    rest: &[u8],
) -> Result<Patterns, TextFault>
    requires long { length rest.now ≤ most_text_bytes }
    requires few { front.count ≤ most_patterns }
    requires bits { length front.bits.items ≡ front.count * (2 * circuit.now.inputs) }
    ensures value { IfOk result
        (IsPatternsValue circuit.now
        (text_behind circuit.now.inputs front.count front.bits.items rest.now)) }
    ensures usable { IfOk result (ArePatternsFor circuit.now) }
    ensures faultless { OnOk result
        (IsPatternFaultless circuit.now
        (text_behind circuit.now.inputs front.count front.bits.items rest.now)) }
    ensures fault { IfErr result
        (IsPatternRefusal circuit.now
        (text_behind circuit.now.inputs front.count front.bits.items rest.now)) }
    ensures exact { (fault : TextFault) → IsLeastPatternFault circuit.now
        (text_behind circuit.now.inputs front.count front.bits.items rest.now) fault
        → IsErrOf result fault ⊎ IsErrOf result TextFault.Memory }
{
    let entries = read_rest(alloc, circuit, front.count, rest)?;
    let patterns = build(alloc, circuit, front, entries.as_slice())?;
    Ok(patterns)
}

// The statements behind so many lines of patterns, if no fault stands in them.
fn read_rest<'t>(
    alloc: Global,
    circuit: &Circuit,
    before: usize,
    rest: &'t [u8],
) -> Result<Vec<Entry<'t>>, TextFault>
    requires long { length rest.now ≤ most_text_bytes }
    requires few { before ≤ most_patterns }
    ensures checked { MatchResult result
        (λ entries. IsChecked (resolve_pattern_tokens circuit.now)
        (rules_behind before circuit.now.inputs) rest.now
        (numbered_pattern_resolutions entries.items))
        (λ fault. IsFaultOrMemory (option_map (fault_behind before)
        (first_fault_of (resolve_pattern_tokens circuit.now)
        (rules_behind before circuit.now.inputs) rest.now)) fault) }
    ensures below { IfOk result
        (λ entries. All (AssignsBelow (length circuit.now.names)) entries.items) }
{
    let reader = Statements {
        alloc,
        circuit,
        before,
    };
    match read_text(alloc, reader, rest) {
        Ok(entries) => Ok(entries),
        Err(fault) => Err(fault_or_memory(fault, before as u32)),
    }
}

// The fault of a text behind so many lines.
fn fault_or_memory(fault: TextFault, lines: u32) -> TextFault
    ensures moved { OrThat told.Memory (λ moved. moved ≡ fault_behind lines fault) result }
    ensures memory { result ≡ told.Memory →
        (fault ≡ told.Memory) ⊎ (2 ^ 32 ≤ place_of fault + lines) }
{
    match fault_behind(fault, lines) {
        Some(moved) => moved,
        None => TextFault::Memory,
    }
}

// The same, if its line has a number.
fn fault_behind(fault: TextFault, lines: u32) -> Option<TextFault>
    ensures some { IfSome result (λ moved. moved ≡ fault_behind lines fault) }
    ensures none { result ≡ None → 2 ^ 32 ≤ place_of fault + lines }
{
    Some(match fault {
        TextFault::Form { line } => TextFault::Form {
            line: line.checked_add(lines)?,
        },
        TextFault::Unknown { line } => TextFault::Unknown {
            line: line.checked_add(lines)?,
        },
        TextFault::Twice { line } => TextFault::Twice {
            line: line.checked_add(lines)?,
        },
        TextFault::Missing { node } => TextFault::Missing { node },
        TextFault::Bit { line } => TextFault::Bit {
            line: line.checked_add(lines)?,
        },
        TextFault::Order { line } => TextFault::Order {
            line: line.checked_add(lines)?,
        },
        TextFault::TooMany { line } => TextFault::TooMany {
            line: line.checked_add(lines)?,
        },
        TextFault::Memory => TextFault::Memory,
        TextFault::Mismatch { line, told, real } => TextFault::Mismatch {
            line: line.checked_add(lines)?,
            told,
            real,
        },
    })
}
