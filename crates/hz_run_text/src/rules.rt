// What the passes over the statements of a run text return.

ghost use Rattle.std.specs.Prelude.{◌≡◌, ◌≤◌, IfOk, is_none};
ghost use Rattle.std.specs.List.{list_any};
ghost use Rattle.std.specs.Option.{option_map};
ghost use Rattle.hz_run_text.specs.RunResolution.{run_resolution_of, numbered_run_resolutions};
ghost use Rattle.hz_run_text.specs.RunFault.{assignments_in, variables_in, names_unknown, steps_in, beyond_from, is_second, size_in, first_size, first_mismatch};
ghost use Rattle.hz_run_text.specs.RunRules.{first_start, first_input, least_left_out, least_missing_node};

use crate::format::Format;
use crate::order::{is_input_line, is_start_line};
use crate::size::{Size, difference};
use crate::statement::{RunEntry, RunHeld};
use hz_core::{Circuit, Memory};
use hz_lists::lesser;
use hz_text::{Allowed, Assigned, Mismatch, any_unknown, least_unassigned};
use std::alloc::Global;
use std::slice;

/// The most steps of a run text, and the most variables in its steps.
pub const MAX_STEPS: usize = 2_000_000;

// Whether the statement names what is not there: in the start no node, in the input no input, in a step no variable.
pub(crate) fn names_unknown(held: &RunHeld, inputs: u32) -> bool
    ensures { result ≡ names_unknown inputs (run_resolution_of held.now) }
{
    match held {
        RunHeld::Start(assigned) => any_unknown(assigned.as_slice(), Allowed::Nodes, inputs),
        RunHeld::Input(assigned) => any_unknown(assigned.as_slice(), Allowed::Inputs, inputs),
        RunHeld::Step(variables) => any_none(variables),
        RunHeld::StepOfOne(variable) => variable.is_none(),
        _ => false,
    }
}

// Whether some variable does not exist.
fn any_none(variables: &[Option<u32>]) -> bool
    ensures { result ≡ list_any is_none variables.now }
{
    variables.iter().any(|variable| variable.is_none())
}

// What a statement assigns.
pub(crate) fn assignments_in<'h>(held: &'h RunHeld) -> &'h [Assigned]
    ensures { result.now ≡ assignments_in (run_resolution_of held.now) }
{
    match held {
        RunHeld::Start(assigned) => assigned.as_slice(),
        RunHeld::Input(assigned) => assigned.as_slice(),
        _ => &[],
    }
}

// The least node that the first start leaves out, or input that the first input line leaves out.
pub(crate) fn least_missing_node(
    alloc: Global,
    entries: &[RunEntry],
    circuit: &Circuit,
) -> Result<Option<u32>, Memory>
    ensures { IfOk result
        (λ node. node ≡ least_missing_node circuit.now (numbered_run_resolutions entries.now)) }
{
    let start = least_left_out(alloc, first_start(entries), circuit.nodes())?;
    let input = least_left_out(alloc, first_input(entries), circuit.inputs())?;
    Ok(lesser(start, input))
}

// The least of that many nodes that the assignments leave out, if they are there.
fn least_left_out(
    alloc: Global,
    assigned: Option<&[Assigned]>,
    nodes: u32,
) -> Result<Option<u32>, Memory>
    ensures { IfOk result
        (λ node. node ≡ least_left_out (option_map (λ list. list.now) assigned.entry) nodes) }
{
    match assigned {
        None => Ok(None),
        Some(assigned) => least_unassigned(alloc, assigned, nodes),
    }
}

// What the first start assigns, if there is one.
fn first_start<'h>(entries: &'h [RunEntry]) -> Option<&'h [Assigned]>
    ensures { option_map (λ list. list.now) result ≡ first_start
        (numbered_run_resolutions entries.now) }
{
    for entry in entries {
        if is_start_line(&entry.held) {
            return Some(assignments_in(&entry.held));
        }
    }
    None
}

// What the first input line assigns, if there is one.
fn first_input<'h>(entries: &'h [RunEntry]) -> Option<&'h [Assigned]>
    ensures { option_map (λ list. list.now) result ≡ first_input
        (numbered_run_resolutions entries.now) }
{
    for entry in entries {
        if is_input_line(&entry.held) {
            return Some(assignments_in(&entry.held));
        }
    }
    None
}

// The first line up to which there are too many steps, or too many variables in steps.
pub(crate) fn line_beyond(entries: &[RunEntry]) -> Option<u32>
    ensures { result ≡ beyond_from 0 0 (numbered_run_resolutions entries.now) }
{
    let mut steps = 0;
    let mut variables = 0;
    for entry in entries {
        steps += steps_in(&entry.held);
        variables += variables_in(&entry.held).len();
        if steps > MAX_STEPS || variables > MAX_STEPS {
            return Some(entry.line);
        }
    }
    None
}

// The first count of the network's size that a text in format 2 tells wrongly.
pub(crate) fn first_mismatch(entries: &[RunEntry], real: Size) -> Option<Mismatch>
    ensures { result ≡ first_mismatch real (numbered_run_resolutions entries.now) }
{
    let [first, ..] = entries else {
        return None;
    };
    if !is_second(&first.held) {
        return None;
    }
    let (line, told) = first_size(entries)?;
    let (told, real) = difference(told, real)?;
    Some(Mismatch { line, told, real })
}

// Whether the statement is the header of format 2.
fn is_second(held: &RunHeld) -> bool
    ensures { result ≡ is_second (run_resolution_of held.now) }
{
    matches!(held, RunHeld::Header(Format::Two))
}

// The first size of a network that a text has, and its line.
fn first_size(entries: &[RunEntry]) -> Option<(u32, Size)>
    ensures { result ≡ first_size (numbered_run_resolutions entries.now) }
{
    for entry in entries {
        if let Some(size) = size_in(&entry.held) {
            return Some((entry.line, size));
        }
    }
    None
}

// The size that a statement has.
fn size_in(held: &RunHeld) -> Option<Size>
    ensures { result ≡ size_in (run_resolution_of held.now) }
{
    match held {
        RunHeld::Net(size) => Some(*size),
        _ => None,
    }
}

// How many steps a statement is.
fn steps_in(held: &RunHeld) -> usize
    ensures value { result ≡ steps_in (run_resolution_of held.now) }
    ensures one { result ≤ 1 }
{
    match held {
        RunHeld::Step(_) => 1,
        RunHeld::StepOfOne(_) => 1,
        _ => 0,
    }
}

// The variables that a statement names.
pub(crate) fn variables_in<'h>(held: &'h RunHeld) -> &'h [Option<u32>]
    ensures { result.now ≡ variables_in (run_resolution_of held.now) }
{
    match held {
        RunHeld::Step(variables) => variables,
        RunHeld::StepOfOne(variable) => slice::from_ref(variable),
        _ => &[],
    }
}
