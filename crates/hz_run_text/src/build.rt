// The run text of statements without a fault.

ghost use Rattle.std.specs.Prelude.{◌≡◌, ◌≤◌, ◌++◌, ◌∷◌, [], length, map, drop, All, Some, None, IsSome, true, false, is_none, IfOk, OnOk};
ghost use Rattle.std.specs.List.{flat_map, list_any, range_with_len};
ghost use Rattle.hz_run_text.specs.declared.order.Place.TheVariants as at;
ghost use Rattle.hz_run_text.specs.RunStatement.{Step, Cycle, End};
ghost use Rattle.hz_run_text.specs.RunResolution.{run_resolution_of, numbered_run_resolutions};
ghost use Rattle.hz_run_text.specs.RunFault.{variables_in};
ghost use Rattle.hz_run_text.specs.RunOrder.{place_after, first_misplaced};
ghost use Rattle.hz_run_text.specs.RunRules.{AssignsBelow, first_run_fault};
ghost use Rattle.hz_run_text.specs.RunText.{IsRunTextBy, run_statements, statements_without_lines};
ghost use Rattle.hz_run_text.specs.RunBuilt.{after_header, last_place, is_run_line, IsRunAdded};
ghost use Rattle.hz_text.specs.Assignment.{assigned_bit};
ghost use Rattle.hz_text.specs.Bits.{IsWholeStart};

use crate::builder::RunBuilder;
use crate::format::Format;
use crate::order::{format_in, is_end};
use crate::rules::assignments_in;
use crate::statement::{RunEntry, RunHeld};
use crate::text::RunText;
use crate::told::ToldRuns;
use hz_core::{Circuit, Memory};
use hz_text::{Assigned, bits_of};
use std::alloc::Global;
use std::slice;

// The run text of statements: the header, in format 2 with the size of the network, the start, the input, the runs and the
// end.
pub(crate) fn build_runs(
    alloc: Global,
    circuit: &Circuit,
    entries: &[RunEntry],
) -> Result<RunText, Memory>
    requires some { 2 ≤ length (after_header entries.now) }
    requires below { All (AssignsBelow (length circuit.now.names)) entries.now }
    requires clear { first_run_fault circuit.now (numbered_run_resolutions entries.now) ≡ None }
    ensures { IfOk result
        (IsRunTextBy circuit.now
        (statements_without_lines (numbered_run_resolutions entries.now))) }
{
    let states = after_header(entries);
    let [start, input, later @ ..] = states else {
        unreachable!();
    };
    let nodes = read_bits(alloc, assignments_in(&start.held), circuit.nodes())?;
    let input = read_bits(alloc, assignments_in(&input.held), circuit.inputs())?;
    let runs = read_runs(alloc, later)?;
    Ok(RunText::of(nodes, input, runs))
}

// The statements behind the header, and in format 2 behind the size of the network.
fn after_header<'h, 'a>(entries: &'h [RunEntry<'a>]) -> &'h [RunEntry<'a>]
    ensures { result.now ≡ after_header entries.now }
{
    let [header, later @ ..] = entries else {
        return entries;
    };
    match format_in(&header.held) {
        Some(Format::Two) => after_first(later),
        Some(Format::One) => later,
        None => later,
    }
}

// The statements behind the first one.
fn after_first<'h, 'a>(entries: &'h [RunEntry<'a>]) -> &'h [RunEntry<'a>]
    ensures { result.now ≡ drop 1 entries.now }
{
    let [_, later @ ..] = entries else {
        return entries;
    };
    later
}

// The bits that assignments give to that many nodes.
fn read_bits(alloc: Global, all: &[Assigned], nodes: u32) -> Result<Vec<bool>, Memory>
    requires { IsWholeStart nodes all.now }
    ensures { IfOk result
        (λ bits. map Some bits.items ≡ map (assigned_bit all.now) (range_with_len 0 nodes)) }
{
    let listed = bits_of(alloc, all, nodes)?;
    let mut bits = Vec::new(alloc);
    read_known(listed.as_slice(), &mut bits)?;
    Ok(bits)
}

// The runs that statements before the end are.
fn read_runs(alloc: Global, entries: &[RunEntry]) -> Result<ToldRuns, Memory>
    requires ordered { first_misplaced at.Runs (numbered_run_resolutions entries.now) ≡ None }
    requires known { All
        (λ entry. list_any is_none (variables_in (run_resolution_of entry.held))
        ≡ false) entries.now }
    ensures { IfOk result
        (λ runs. statements_without_lines (numbered_run_resolutions entries.now)
        ≡ flat_map run_statements runs ++ End ∷ []) }
{
    let mut runs = RunBuilder::new(alloc)?;
    let mut flips = Vec::new(alloc);
    for entry in entries {
        if is_end(&entry.held) {
            let told = runs.finish()?;
            return Ok(told);
        }
        add_statement(alloc, &mut runs, &entry.held, &mut flips)?;
    }
    runs.finish()
}

// Adds a statement to the runs before it.
fn add_statement(
    alloc: Global,
    runs: &mut RunBuilder,
    held: &RunHeld,
    flips: &mut Vec<u32>,
) -> Result<(), Memory>
    requires follows { IsSome (place_after (last_place runs.old) (run_resolution_of held.now)) }
    requires line { is_run_line (run_resolution_of held.now) ≡ true }
    requires known { list_any is_none (variables_in (run_resolution_of held.now)) ≡ false }
    ensures { OnOk result (IsRunAdded runs.old (run_resolution_of held.now) runs.new) }
{
    match held {
        RunHeld::Run => runs.begin_run(alloc),
        RunHeld::Step(variables) => add_step(runs, variables, flips),
        RunHeld::StepOfOne(variable) => add_step_of_one(runs, *variable),
        RunHeld::Cycle => begin_cycle(alloc, runs),
        _ => unreachable!(),
    }
}

// Begins the cycle of the last run.
fn begin_cycle(alloc: Global, runs: &mut RunBuilder) -> Result<(), Memory>
    requires follows { IsSome (place_after (last_place runs.old) Cycle) }
    ensures { OnOk result (IsRunAdded runs.old Cycle runs.new) }
{
    runs.begin_cycle(alloc);
    Ok(())
}

// Adds a step to the last run.
fn add_step(
    runs: &mut RunBuilder,
    variables: &[Option<u32>],
    flips: &mut Vec<u32>,
) -> Result<(), Memory>
    requires follows { IsSome (place_after (last_place runs.old) (Step variables.now)) }
    requires known { list_any is_none variables.now ≡ false }
    ensures { OnOk result (IsRunAdded runs.old (Step variables.now) runs.new) }
{
    read_known(variables, flips)?;
    runs.push_step(flips.as_slice())
}

// Adds a step of one variable to the last run.
fn add_step_of_one(runs: &mut RunBuilder, variable: Option<u32>) -> Result<(), Memory>
    requires follows { IsSome (place_after (last_place runs.old) (Step (variable ∷ []))) }
    requires known { list_any is_none (variable ∷ []) ≡ false }
    ensures { OnOk result (IsRunAdded runs.old (Step (variable ∷ [])) runs.new) }
{
    let Some(variable) = variable else {
        unreachable!();
    };
    runs.push_step(slice::from_ref(&variable))
}

// Values that are all there, in place of those that the vector had.
fn read_known<T: Copy>(values: &[Option<T>], known: &mut Vec<T>) -> Result<(), Memory>
    requires { All IsSome values.now }
    ensures { OnOk result (map Some known.new.items ≡ values.now) }
{
    known.clear();
    for value in values {
        push_known(known, *value)?;
    }
    Ok(())
}

fn push_known<T: Copy>(known: &mut Vec<T>, value: Option<T>) -> Result<(), Memory>
    requires { IsSome value }
    ensures { OnOk result (map Some known.new.items ≡ map Some known.old.items ++ value ∷ []) }
{
    let Some(value) = value else {
        unreachable!();
    };
    known.push(value)?;
    Ok(())
}
