//! Patterns worked by hand, in lanes at the borders of words.
ghost use Rattle.std.specs.Prelude.{◌≡◌, ◌≢◌, ◌<◌, ◌≤◌, IsTrue, length};
ghost use Rattle.hz_net.specs.Network.{IsInput};
ghost use Rattle.hz_plane.specs.Lanes.{ListsAllInputs};
ghost use Rattle.hz_plane.specs.declared.stage.Stage.TheVariants.{Loading, Settled};

use hz_line::MAX_TEXT;
use hz_net::Net;
use hz_pattern_text::{Patterns, read_patterns};
use hz_plane::{LaneFault, Planes};
use hz_samples::{LATCH, MULTIPLEXER, letter_of, net_of, push_numbers};
use std::alloc::Global;
use std::test::Fail;

// The lanes of the first patterns of a text.
const LANES: [u32; 4] = [0, 63, 64, 511];

// What is found of each pattern: the values of all variables in the results of both algorithms, or its fault.
fn found(alloc: Global, netlist: &str, text: &str) -> Result<String, Fail> {
    let net = net_of(alloc, netlist)?;
    found_on(alloc, &net, text)
}

fn found_on(alloc: Global, net: &Net, text: &str) -> Result<String, Fail> {
    if text.len() > MAX_TEXT {
        return Err("a long text".into());
    }
    let patterns = read_patterns(alloc, net.circuit(), text.as_bytes())?;
    found_in(alloc, net, &patterns)
}

fn found_in(alloc: Global, net: &Net, patterns: &Patterns) -> Result<String, Fail> {
    let mut planes = Planes::new(alloc, net)?;
    let mut found = String::new(alloc);
    push_found(alloc, &mut found, &mut planes, patterns)?;
    Ok(found)
}

fn push_found(
    alloc: Global,
    text: &mut String,
    planes: &mut Planes<'_>,
    patterns: &Patterns,
) -> Result<(), Fail> {
    planes.clear();
    for number in 0..patterns.count() {
        load(alloc, planes, patterns, number)?;
    }
    planes.complete();
    planes.spread();
    push_lanes(text, planes, patterns.count())?;
    planes.settle();
    push_lanes(text, planes, patterns.count())?;
    push_unsettled(text, planes, patterns.count())
}

// Loads the lane of a pattern: what is held, and the pattern's inputs.
fn load(
    alloc: Global,
    planes: &mut Planes<'_>,
    patterns: &Patterns,
    number: usize,
) -> Result<(), Fail>
    requires stage { planes.old.stage ≡ Loading }
    requires number { number < length patterns.now.patterns }
    ensures { planes.new.stage ≡ Loading }
{
    let listed = listed_of(alloc, patterns.held(), patterns.from(number))?;
    let (input, listed) = (patterns.to(number), listed.as_slice());
    let lane = LANES.get(number).copied().unwrap_or(512);
    if lane >= 512 {
        return Err("more patterns than lanes".into());
    }
    if !fits(planes.net(), input, listed) {
        return Err("no pattern of this network".into());
    }
    planes.load(lane, input, listed);
    Ok(())
}

// The listed start of these held nodes and inputs.
fn listed_of(
    alloc: Global,
    held: &[Option<bool>],
    inputs: &[bool],
) -> Result<Vec<Option<bool>>, Fail> {
    let mut listed = Vec::new(alloc);
    for (number, bit) in held.iter().enumerate() {
        listed.push(inputs.get(number).copied().or(*bit))?;
    }
    Ok(listed)
}

// Whether these are an input and a listed start of a network.
fn fits(net: &Net, input: &[bool], listed: &[Option<bool>]) -> bool
    ensures input { IsTrue result → IsInput net.now input.now }
    ensures listed { IsTrue result → length listed.now ≡ length net.now.names }
    ensures inputs { IsTrue result → ListsAllInputs net.now listed.now }
{
    let circuit = net.circuit();
    input.len() == circuit.inputs() as usize
        && listed.len() == circuit.nodes() as usize
        && lists_all_inputs(net, listed)
}

fn lists_all_inputs(net: &Net, listed: &[Option<bool>]) -> bool
    requires { length listed.now ≡ length net.now.names }
    ensures { IsTrue result → ListsAllInputs net.now listed.now }
{
    for input in 0..net.circuit().inputs() {
        let Some(_bit) = listed[input as usize] else {
            return false;
        };
    }
    true
}

fn push_lanes(text: &mut String, planes: &Planes<'_>, patterns: usize) -> Result<(), Fail>
    requires stage { planes.now.stage ≢ Loading }
{
    for lane in LANES.iter().take(patterns) {
        push_lane(text, planes, *lane)?;
    }
    Ok(())
}

// The fault of a lane, or its values as letters.
fn push_lane(text: &mut String, planes: &Planes<'_>, lane: u32) -> Result<(), Fail>
    requires stage { planes.now.stage ≢ Loading }
{
    if lane >= 512 {
        return Err("no lane".into());
    }
    match planes.fault(lane) {
        Some(LaneFault::Open { gate }) => push_fault(text, "open ", gate),
        Some(LaneFault::Unstable { gate }) => push_fault(text, "unstable ", gate),
        None => push_lane_values(text, planes, lane),
    }
}

// A word for each lane that has a start and has not settled.
fn push_unsettled(text: &mut String, planes: &Planes<'_>, patterns: usize) -> Result<(), Fail>
    requires stage { planes.now.stage ≡ Settled }
    requires loaded { planes.now.stage ≢ Loading }
{
    for lane in LANES.iter().take(patterns) {
        if *lane < 512 && planes.fault(*lane).is_none() && planes.is_unsettled(*lane) {
            text.push_str("unsettled ")?;
        }
    }
    Ok(())
}

fn push_fault(text: &mut String, word: &str, gate: u32) -> Result<(), Fail> {
    text.push_str(word)?;
    push_numbers(text, &[gate])
}

fn push_lane_values(text: &mut String, planes: &Planes<'_>, lane: u32) -> Result<(), Fail>
    requires { lane < 512 }
{
    for var in 0..planes.net().len() {
        text.push(letter_of(planes.get(lane, var)))?;
    }
    text.push(' ')?;
    Ok(())
}

#[test]
fn patterns_in_lanes(rt: HostRuntime) -> Result<(), Fail> {
    let own = "INPUT(a)\ny = OR(a, y)\n";
    let rows = [
        (
            MULTIPLEXER,
            "from 111 to 011\nfrom 110 to 110\nfrom 110 to 010\nfrom 111 to 011",
            "X11XXXXXX1X1XX 11001011110010 X10XX0XXX1X0X0 X11XXXXXX1X1XX \
            01110110011101 11001011110010 01010000011000 01110110011101 ",
        ),
        // Both inputs of the latch fall together: what it then holds is open.
        (LATCH, "from 11 to 00", "XXXXXXXX 00XX0X0X unsettled "),
        // A gate that reads itself.
        (own, "from 0 to 0\nfrom 1 to 0", "open 1 X1X1 open 1 0101 "),
        (
            own,
            "hold y=0\nfrom 1 to 0\nfrom 0 to 0",
            "unstable 1 0000 unstable 1 0000 ",
        ),
        (own, "hold y=1\nfrom 0 to 1", "X1X1 1111 "),
    ];
    for (netlist, patterns, text) in rows {
        let found = found(rt.alloc(), netlist, patterns)?;
        assert_eq!(rt; found.as_str(), text);
    }
    Ok(())
}
