//! Algorithms A and B on a small circuit, and the runs that show what they find, worked by hand. More circuits are rows of `tests/model.py`.
ghost use Rattle.std.specs.Prelude.{◌≡◌, ◌<◌, length};
ghost use Rattle.hz_net.specs.Network.{network_of, IsState, AreByVariable, IsInput};
ghost use Rattle.hz_net.specs.Starts.{IsStableStart};
ghost use Rattle.hz_reach.specs.Cycles.{AreResultsOfBoth};
ghost use Rattle.hz_reach.specs.Given.{AreResultsOfA};

use hz_core::Tri;
use hz_gmw::Run;
use hz_lists::Steps;
use hz_net::Net;
use hz_pass::{Front, settle, spread};
use hz_reach::{Change, Results, Scratch, cycle_run, settle_run, spread_run};
use hz_samples::{TWO_WIRES, net_of, push_numbers, push_values, runs_of};
use std::alloc::Global;
use std::marker::Brand;
use std::sync::ledger::{Blank, Ledger};
use std::test::Fail;

// What is found of a change: the rounds and the result of each algorithm with the round in which each variable changed, the
// spread run without and with the wires that it doesn't need, the settle run and the cycle.
fn found(alloc: Global, netlist: &str, change: &str) -> Result<String, Fail> {
    let net = net_of(alloc, netlist)?;
    found_on(alloc, &net, change)
}

fn found_on(alloc: Global, net: &Net, change: &str) -> Result<String, Fail> {
    let told = runs_of(alloc, net, change)?;
    let mut start = vec![in alloc; false; net.len() as usize]?;
    net.expand(told.nodes(), &mut start);
    let inputs = net.circuit().inputs() as usize;
    if inputs > start.len() || !net.settled(&start[..inputs], &start) {
        return Err("no stable start".into());
    }
    found_from(alloc, net, &start, told.input())
}

fn found_from(alloc: Global, net: &Net, start: &[bool], input: &[bool]) -> Result<String, Fail>
    requires start { IsStableStart net.now start.now }
    requires input { IsInput net.now input.now }
{
    let change = Change { net, start, input };
    let variables = net.len() as usize;
    let mut a = vec![in alloc; Tri::Zero; variables]?;
    let mut b = vec![in alloc; Tri::Zero; variables]?;
    let mut room = Room {
        ranks: vec![in alloc; 0u32; variables]?,
        when: vec![in alloc; 0u32; variables]?,
        work: vec![in alloc; Tri::Zero; variables]?,
        front: Front::new(alloc, net)?,
    };
    let (rounds_a, rounds_b) = make_passes::<Brand>(
        &change,
        &mut a,
        &mut b,
        &mut room,
        Blank::new(1),
    );
    let results = Results {
        a: &a,
        ranks: &room.ranks,
        b: &b,
        when: &room.when,
    };
    let mut text = String::new(alloc);
    push_result(&mut text, rounds_a, results.a, results.ranks)?;
    push_result(&mut text, rounds_b, results.b, results.when)?;
    push_runs(alloc, &change, &results, &mut text)?;
    Ok(text)
}

// The ranks, the rounds in which variables settle, and room for a round.
#[derive(Drop)]
pub(crate) struct Room {
    pub(crate) ranks: Vec<u32>,
    pub(crate) when: Vec<u32>,
    pub(crate) work: Vec<Tri>,
    pub(crate) front: Front,
}

pub(crate) fn make_passes<L: Ledger>(
    change: &Change,
    a: &mut [Tri],
    b: &mut [Tri],
    room: &mut Room,
    ledger: Blank,
) -> (u32, u32)
    requires start { IsStableStart change.now.net.now change.now.start.now }
    requires input { IsInput change.now.net.now change.now.input.now }
    requires a { IsState change.now.net.now a.old }
    requires b { IsState change.now.net.now b.old }
    requires ranks { AreByVariable change.now.net.now room.old.ranks.items }
    requires when { AreByVariable change.now.net.now room.old.when.items }
    requires work { IsState change.now.net.now room.old.work.items }
    requires front { room.old.front ≡ length (network_of change.now.net.now) }
    requires name { ledger.name ≡ L.name }
    requires parts { ledger.parts ≡ L.parts }
    requires some { 0 < ledger.parts }
    ensures { AreResultsOfBoth change.now.net.now change.now.start.now change.now.input.now
        a.new room.new.ranks.items b.new room.new.when.items }
{
    let (book, share) = ledger.open::<L>();
    let mut steps = Steps::new(book, share);
    let rounds_a = spread(
        change.net,
        change.input,
        change.start,
        a,
        room.ranks.as_mut_slice(),
        room.work.as_mut_slice(),
        &mut room.front,
        &mut steps,
    );
    b.copy_from_slice(a);
    let rounds_b = settle(
        change.net,
        change.input,
        b,
        room.when.as_mut_slice(),
        room.work.as_mut_slice(),
        &mut room.front,
        &mut steps,
    );
    (rounds_a, rounds_b)
}

fn push_result(text: &mut String, rounds: u32, values: &[Tri], when: &[u32]) -> Result<(), Fail> {
    push_numbers(text, &[rounds])?;
    push_values(text, values)?;
    text.push(' ')?;
    push_numbers(text, when)?;
    text.push('\n')?;
    Ok(())
}

fn push_runs(
    alloc: Global,
    change: &Change,
    results: &Results,
    text: &mut String,
) -> Result<(), Fail>
    requires { AreResultsOfBoth change.now.net.now change.now.start.now change.now.input.now
        results.now.a.now results.now.ranks.now results.now.b.now results.now.when.now }
{
    push_spread(alloc, change, results, text)?;
    let variables = change.net.len() as usize;
    let mut scratch = Scratch::new(alloc, change.net)?;
    let mut settle = Run::with_room(alloc, 2 * variables, 2 * variables)?;
    settle_run(
        change.net,
        change.start,
        change.input,
        results.a,
        results.ranks,
        results.when,
        results.b,
        &mut scratch,
        &mut settle,
    );
    push_run(text, &settle)?;
    let mut cycle = Run::with_room(alloc, 4 * variables, 4 * variables)?;
    cycle_run(
        change.net,
        change.input,
        results.ranks,
        results.b,
        &mut scratch,
        &mut cycle,
    );
    push_run(text, &cycle)
}

fn push_spread(
    alloc: Global,
    change: &Change,
    results: &Results,
    text: &mut String,
) -> Result<(), Fail>
    requires { AreResultsOfA change.now.net.now change.now.start.now change.now.input.now
        results.now.a.now results.now.ranks.now }
{
    let variables = change.net.len() as usize;
    let mut scratch = Scratch::new(alloc, change.net)?;
    let mut spread = Run::with_room(alloc, variables, variables)?;
    spread_run(
        change.net,
        change.start,
        change.input,
        results.a,
        results.ranks,
        false,
        &mut scratch,
        &mut spread,
    );
    push_run(text, &spread)
}

// A line with the variables of each step.
fn push_run(text: &mut String, run: &Run) -> Result<(), Fail> {
    for number in 0..run.steps() {
        push_numbers(text, run.step(number))?;
        text.push('/')?;
    }
    text.push('\n')?;
    Ok(())
}

// x rises. A pulse may come, and y settles at 0.
#[test]
fn two_wires(rt: HostRuntime) -> Result<(), Fail> {
    let change = "runs 1\nstart x=0 y=0\ninput x=1\nend";
    let found = found(rt.alloc(), TWO_WIRES, change)?;
    assert_eq!(rt;
        found.as_str(),
        "4 XXXX 1 3 2 2 \n4 1011 1 3 2 2 \n0 /2 /1 /3 /\n0 /2 /1 /3 /1 /\n\n"
    );
    Ok(())
}
