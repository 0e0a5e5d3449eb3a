//! What runs that keep orders come to: an X takes its excitation, and 0 and 1 stay.
ghost use Rattle.std.specs.Prelude.{◌≡◌, ℕ, Bool, List, map, IfOk, length};
ghost use Rattle.hz_core.specs.Ternary.{Refines};
ghost use Rattle.hz_net.specs.Network.{network_of, excitation3, IsInput, IsVariable};
ghost use Rattle.hz_net.specs.Starts.{IsStableStart};
ghost use Rattle.hz_orders.specs.Inductive.{IsInductiveUnder};
ghost use Rattle.hz_orders.specs.Outcomes.{told_value, told_values, IsKeptOutcome};
ghost use Rattle.hz_orders.specs.Ends.{CanEnd, CoversKept};

use crate::telling::OrderedChange;
use hz_core::{Memory, Tri};
use hz_net::{Net, VarKind};
use hz_word::{Count, Word};
use std::alloc::Global;

/// What a change comes to under orders, given words that are inductive under them: a ternary value for each variable. Every outcome state of
/// runs that keep the orders refines it.
pub fn ends_under(alloc: Global, change: &OrderedChange, told: &[Word]) -> Result<Vec<Tri>, Memory>
    requires start { IsStableStart change.now.net.now change.now.start.now }
    requires input { IsInput change.now.net.now change.now.input.now }
    requires told { IsInductiveUnder change.now.orders.now (network_of change.now.net.now)
        change.now.input.now change.now.start.now change.now.cap told.now }
    ensures { IfOk result (λ ends. (state : List Bool) →
        IsKeptOutcome change.now.orders.now (network_of change.now.net.now) change.now.input.now
        change.now.start.now state → Refines state ends.items) }
{
    change.net.keeps_shape();
    let mut values = values_of(alloc, told)?;
    narrow_all(alloc, change, values.as_mut_slice())?;
    Ok(values)
}

// A word without a change tells a value, any other X.
fn value_of(word: Word) -> Tri
    ensures { result ≡ told_value word }
{
    match word.changes {
        Count::Exact(0) => Tri::of(word.first),
        Count::Exact(_) => Tri::Unknown,
        Count::Many => Tri::Unknown,
    }
}

// What words tell of their variables.
fn values_of(alloc: Global, told: &[Word]) -> Result<Vec<Tri>, Memory>
    ensures { IfOk result (λ values. values.items ≡ told_values told.now) }
{
    let mut values = Vec::new(alloc);
    for word in told {
        values.push(value_of(*word))?;
    }
    Ok(values)
}

// All variables.
fn variables(alloc: Global, net: &Net) -> Result<Vec<u32>, Memory> {
    let mut variables = Vec::new(alloc);
    for var in 0..net.len() {
        variables.push(var)?;
    }
    Ok(variables)
}

// Lets each X take its excitation, again if something that it reads has changed.
fn narrow_all(alloc: Global, change: &OrderedChange, values: &mut [Tri]) -> Result<(), Memory>
    requires change { CanEnd change.now }
    requires values { CoversKept change.now values.old }
    ensures { CoversKept change.now values.new }
{
    let mut due = variables(alloc, change.net)?;
    for place in 0..usize::MAX {
        if place >= due.len() {
            break;
        }
        let var = due[place];
        visit(change, values, var, &mut due)?;
    }
    Ok(())
}

// Lets a variable take its excitation. If it was X, and is so no more, what reads it is due.
fn visit(
    change: &OrderedChange,
    values: &mut [Tri],
    var: u32,
    due: &mut Vec<u32>,
) -> Result<(), Memory>
    requires change { CanEnd change.now }
    requires values { CoversKept change.now values.old }
    ensures { CoversKept change.now values.new }
{
    if var >= change.net.len() {
        return Ok(());
    }
    if !narrow(change, values, var) {
        return Ok(());
    }
    due.extend_from_slice(change.net.readers(var))?;
    Ok(())
}

// Lets a variable take its excitation if it is X, and says whether it is X no more.
fn narrow(change: &OrderedChange, values: &mut [Tri], var: u32) -> bool
    requires change { CanEnd change.now }
    requires values { CoversKept change.now values.old }
    requires var { IsVariable change.now.net.now var }
    ensures { CoversKept change.now values.new }
{
    let Tri::Unknown = values[var as usize] else {
        return false;
    };
    let excited = excited(change, values, var);
    values[var as usize] = excited;
    excited != Tri::Unknown
}

// The ternary excitation of a variable.
fn excited(change: &OrderedChange, values: &[Tri], var: u32) -> Tri
    requires change { CanEnd change.now }
    requires values { length values.now ≡ length (network_of change.now.net.now) }
    requires var { IsVariable change.now.net.now var }
    ensures { result ≡ excitation3 (network_of change.now.net.now) change.now.input.now values.now var }
{
    match change.net.kind_of(var) {
        VarKind::Input { number } => Tri::of(change.input[number as usize]),
        VarKind::Gate { kind } => {
            let (wire, count) = change.net.wires_in(var);
            kind.eval3(&values[wire as usize..(wire + count) as usize])
        }
        VarKind::Wire { source, .. } => values[source as usize],
    }
}
