//! How often the nodes of circuits may change, from above and from below, worked by hand.
ghost use Rattle.std.specs.Prelude.{◌≡◌, ◌<◌, length};
ghost use Rattle.hz_net.specs.Network.{network_of, AreByVariable, IsInput};
ghost use Rattle.hz_net.specs.Starts.{IsStableStart};
ghost use Rattle.hz_reach.specs.Cycles.{AreResultsOfBoth};

use crate::passes::{Room, make_passes};
use hz_bounds::{EdgeClass, Range, edge_class, range_of, tell};
use hz_core::Tri;
use hz_free::Free;
use hz_gmw::Run;
use hz_net::Net;
use hz_pass::Front;
use hz_reach::{Change, Results};
use hz_samples::{HOLDING, LATCH, MULTIPLEXER, letter_of, net_of, runs_of};
use hz_witness::witness_run;
use hz_word::{Count, Word};
use std::alloc::Global;
use std::marker::Brand;
use std::sync::ledger::Blank;
use std::test::Fail;

// The economy latch: one gate less than the usual one, and a feedback path through its first gate.
const ECONOMY: &str =
    "INPUT(d)\nINPUT(g)\nsn = NAND(d, g)\nrn = NAND(sn, g)\nq = NAND(sn, qb)\nqb = NAND(rn, q)\n";

// A pulse of one source, which reconverges.
const TWICE: &str = "INPUT(x)\nm = XOR(x, x)\nz = OR(m, m)\n";

// The same, with a buffer on one way, which can hold back a change more.
const TWICE_AND_LATE: &str = "INPUT(x)\nm = XOR(x, x)\nb = BUFF(m)\nz = OR(m, b)\n";

// A pulse, and how it goes on along a chain, which ends where it began, and into a gate that changes itself.
const CHAIN: &str = "INPUT(x)\nn = NOT(x)\np = AND(x, n)\nq = BUFF(p)\nr = NOT(q)\nz = OR(x, p)\n";

// A C element of gates: c rises when a and b are 1, falls when both are 0, and else keeps its value.
const JOIN: &str =
    "INPUT(a)\nINPUT(b)\nab = AND(a, b)\nac = AND(a, c)\nbc = AND(b, c)\nc = OR(ab, ac, bc)\n";

// A ring of buffers that one gate feeds, and what stands behind it.
const FED: &str = "INPUT(x)\np = OR(x, w)\nv = BUFF(p)\nw = BUFF(v)\nz = NOT(w)\n";

// For each node its value at the start, the value that Algorithm B gives it, how often it changes, and its class.
fn edges(alloc: Global, netlist: &str, change: &str) -> Result<String, Fail> {
    let net = net_of(alloc, netlist)?;
    edges_on(alloc, &net, change)
}

fn edges_on(alloc: Global, net: &Net, change: &str) -> Result<String, Fail> {
    let told = runs_of(alloc, net, change)?;
    let mut start = vec![in alloc; false; net.len() as usize]?;
    net.expand(told.nodes(), &mut start);
    let inputs = net.circuit().inputs() as usize;
    if inputs > start.len() || !net.settled(&start[..inputs], &start) {
        return Err("no stable start".into());
    }
    edges_from(alloc, net, &start, told.input())
}

fn edges_from(alloc: Global, net: &Net, start: &[bool], input: &[bool]) -> Result<String, Fail>
    requires start { IsStableStart net.now start.now }
    requires input { IsInput net.now input.now }
{
    let change = Change { net, start, input };
    let variables = net.len() as usize;
    let mut a = vec![in alloc; Tri::Zero; variables]?;
    let mut b = vec![in alloc; Tri::Zero; variables]?;
    let mut room = Room {
        ranks: vec![in alloc; 0u32; variables]?,
        when: vec![in alloc; 0u32; variables]?,
        work: vec![in alloc; Tri::Zero; variables]?,
        front: Front::new(alloc, net)?,
    };
    let _ = make_passes::<Brand>(&change, &mut a, &mut b, &mut room, Blank::new(1));
    let results = Results {
        a: &a,
        ranks: &room.ranks,
        b: &b,
        when: &room.when,
    };
    bounds(alloc, &change, &results)
}

fn bounds(alloc: Global, change: &Change, results: &Results) -> Result<String, Fail>
    requires { AreResultsOfBoth change.now.net.now change.now.start.now change.now.input.now
        results.now.a.now results.now.ranks.now results.now.b.now results.now.when.now }
{
    let variables = change.net.len() as usize;
    let mut run = Run::new(alloc);
    let mut counts = vec![in alloc; 0u32; variables]?;
    witness_run(alloc, change, results, &mut run, &mut counts)?;
    let free = Free::build(alloc, change.net)?;
    let at_rest = Word {
        first: false,
        changes: Count::Exact(0),
    };
    let mut told = vec![in alloc; at_rest; variables]?;
    tell(
        alloc,
        change.net,
        &free,
        change.start,
        change.input,
        results.a,
        1000,
        &mut told,
    )?;
    let mut text = String::new(alloc);
    for node in 0..change.net.circuit().nodes() {
        push_edges(&mut text, change, results.b, &told, &counts, node as usize)?;
    }
    Ok(text)
}

fn push_edges(
    text: &mut String,
    change: &Change,
    b: &[Tri],
    told: &[Word],
    counts: &[u32],
    node: usize,
) -> Result<(), Fail> {
    let start = change.start.get(node).copied().ok_or("no start")?;
    let end = b.get(node).copied().ok_or("no end")?;
    let word = told.get(node).copied().ok_or("no word")?;
    let count = counts.get(node).copied().ok_or("no count")?;
    let range = range_of(word.changes, count);
    text.push(letter_of(Tri::of(start)))?;
    text.push(letter_of(end))?;
    push_range(text, range)?;
    text.push_str(name_of(edge_class(start, end, range)))?;
    text.push_str(", ")?;
    Ok(())
}

fn push_range(text: &mut String, range: Range) -> Result<(), Fail> {
    let alloc = *text.allocator();
    let least = range.least;
    let shown = match range.most {
        Some(most) => format!(in alloc; " {least}..{most} ")?,
        None => format!(in alloc; " {least}.. ")?,
    };
    Ok(text.push_str(shown.as_str())?)
}

fn name_of(class: EdgeClass) -> &'static str {
    match class {
        EdgeClass::Steady => "steady",
        EdgeClass::Single => "single",
        EdgeClass::Static => "static",
        EdgeClass::MaybeStatic => "maybe-static",
        EdgeClass::Dynamic => "dynamic",
        EdgeClass::MaybeDynamic => "maybe-dynamic",
        EdgeClass::Unsettled => "unsettled",
    }
}

#[test]
fn edges_of_nodes(rt: HostRuntime) -> Result<(), Fail> {
    let select = "runs 1\nstart s=1 x=1 y=1 n=0 a=1 b=0 z=1\ninput s=0 x=1 y=1\nend";
    let rows = [
        (
            MULTIPLEXER,
            select,
            "10 1..1 single, 11 0..0 steady, 11 0..0 steady, 01 1..1 single, 10 1..1 single, \
             01 1..1 single, 11 2..2 static, ",
        ),
        // The latch is set.
        (
            LATCH,
            "runs 1\nstart r=0 s=0 q=0 qb=1\ninput r=0 s=1\nend",
            "00 0..0 steady, 01 1..1 single, 01 1..1 single, 10 1..1 single, ",
        ),
        // The pulse may be kept or lost, and kept and lost again.
        (
            HOLDING,
            "runs 1\nstart x=0 p=0 n=1 y=0\ninput x=1\nend",
            "01 1..1 single, 00 2..2 static, 10 1..1 single, 0X 2.. unsettled, ",
        ),
        (
            ECONOMY,
            "runs 1\nstart d=1 g=0 sn=1 rn=1 q=0 qb=1\ninput d=1 g=1\nend",
            "11 0..0 steady, 01 1..1 single, 10 1..1 single, 11 2..2 static, 01 1.. maybe-dynamic, \
             10 3.. dynamic, ",
        ),
        (
            TWICE,
            "runs 1\nstart x=0 m=0 z=0\ninput x=1\nend",
            "01 1..1 single, 00 2..2 static, 00 2..4 static, ",
        ),
        (
            TWICE_AND_LATE,
            "runs 1\nstart x=0 m=0 b=0 z=0\ninput x=1\nend",
            "01 1..1 single, 00 2..2 static, 00 2..2 static, 00 2..4 static, ",
        ),
        (
            CHAIN,
            "runs 1\nstart x=0 n=1 p=0 q=0 r=1 z=0\ninput x=1\nend",
            "01 1..1 single, 10 1..1 single, 00 2..2 static, 00 2..2 static, 11 2..2 static, \
             01 3..3 dynamic, ",
        ),
        // It rises and falls with the later of two inputs, and keeps its value with the earlier one.
        (
            JOIN,
            "runs 1\nstart a=0 b=1 ab=0 ac=0 bc=0 c=0\ninput a=1 b=1\nend",
            "01 1..1 single, 11 0..0 steady, 01 1..1 single, 01 1..1 single, 01 1..1 single, \
             01 1..1 single, ",
        ),
        (
            JOIN,
            "runs 1\nstart a=1 b=1 ab=1 ac=1 bc=1 c=1\ninput a=0 b=1\nend",
            "10 1..1 single, 11 0..0 steady, 10 1..1 single, 10 1..1 single, 11 0..0 steady, \
             11 0..0 steady, ",
        ),
        (
            FED,
            "runs 1\nstart x=0 p=0 v=0 w=0 z=1\ninput x=1\nend",
            "01 1..1 single, 01 1..1 single, 01 1..1 single, 01 1..1 single, 10 1..1 single, ",
        ),
    ];
    for (netlist, change, text) in rows {
        let found = edges(rt.alloc(), netlist, change)?;
        assert_eq!(rt; found.as_str(), text);
    }
    Ok(())
}

// The class word of a range, which says how often a variable changes at most if it has a number there.
fn class_of(start: bool, end: Tri, least: u32, most: Count) -> &'static str {
    name_of(edge_class(start, end, range_of(most, least)))
}

#[test]
fn classes_of_ranges(rt: HostRuntime) -> Result<(), Fail> {
    let many = Count::Many;
    let rows = [
        // What never changes is steady, whatever else is known.
        (false, Tri::Zero, 0, Count::Exact(0), "steady"),
        (true, Tri::Unknown, 0, Count::Exact(0), "steady"),
        // What Algorithm B leaves X may not settle, however seldom it changes.
        (false, Tri::Unknown, 1, Count::Exact(1), "unsettled"),
        (true, Tri::Unknown, 2, many, "unsettled"),
        // What ends as it began is static if two changes are shown.
        (false, Tri::Zero, 1, Count::Exact(2), "maybe-static"),
        (true, Tri::One, 0, many, "maybe-static"),
        (false, Tri::Zero, 2, Count::Exact(2), "static"),
        (true, Tri::One, 5, many, "static"),
        // What ends at another value is single if it changes once at most, and dynamic if three changes are shown.
        (false, Tri::One, 0, Count::Exact(1), "single"),
        (true, Tri::Zero, 1, Count::Exact(1), "single"),
        (false, Tri::One, 1, Count::Exact(3), "maybe-dynamic"),
        (true, Tri::Zero, 2, many, "maybe-dynamic"),
        (false, Tri::One, 3, Count::Exact(3), "dynamic"),
        (true, Tri::Zero, 3, many, "dynamic"),
    ];
    for (start, end, least, most, word) in rows {
        assert_eq!(rt; class_of(start, end, least, most), word);
    }
    Ok(())
}
