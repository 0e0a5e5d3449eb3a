//! How often the nodes of circuits may change under orders of wires, and what they come to, worked by hand.
ghost use Rattle.std.specs.Prelude.{◌≡◌, ◌<◌, length};
ghost use Rattle.hz_net.specs.Network.{network_of, AreByVariable, IsInput};
ghost use Rattle.hz_net.specs.Starts.{IsStableStart};
ghost use Rattle.hz_reach.specs.Cycles.{AreResultsOfBoth};

use crate::passes::{Room, make_passes};
use hz_bounds::tell;
use hz_core::Tri;
use hz_free::Free;
use hz_net::Net;
use hz_orders::{Order, OrderedChange, ends_under, tell_under};
use hz_pass::Front;
use hz_reach::{Change, Results};
use hz_samples::{letter_of, net_of, runs_of};
use hz_word::{Count, Word};
use std::alloc::Global;
use std::marker::Brand;
use std::sync::ledger::Blank;
use std::test::Fail;

// A flip-flop of six gates with a clear: sb, s, r, rb, q, qb. The wires of r are the variables 14, 15 and 16: of s, clock and rb.
const FLIP_FLOP: &str =
    "INPUT(clock)\nINPUT(d)\nINPUT(clear_n)\nsb = NAND(rb, s)\ns = NAND(sb, clock, clear_n)\n\
     r = NAND(s, clock, rb)\nrb = NAND(r, d, clear_n)\nq = NAND(s, qb)\nqb = NAND(q, r, clear_n)\n";

// A flip-flop of two latches. The wires of n5 are the variables 22 and 23: of dn and cn.
const LATCHES: &str =
    "INPUT(d)\nINPUT(clk)\nn4 = NOT(dn)\ncn = NOT(clk)\nn1 = NOT(d)\nq_bar = NAND(q, n6)\nq = NAND(q_bar, n5)\n\
     n6 = NAND(n4, cn)\nn5 = NAND(dn, cn)\nq_bar_n = NAND(dn, n3)\ndn = NAND(q_bar_n, n2)\nn3 = NAND(n1, clk)\nn2 = NAND(d, clk)\n";

// A pulse of one source, by the wires 3 and 4, which reconverges.
const TWICE: &str = "INPUT(x)\nm = XOR(x, x)\nz = OR(m, m)\n";

// For each node its value at the start, what it comes to under the orders, and how often it changes at most.
fn words(alloc: Global, netlist: &str, change: &str, orders: &[Order]) -> Result<String, Fail> {
    let net = net_of(alloc, netlist)?;
    words_on(alloc, &net, change, orders)
}

fn words_on(alloc: Global, net: &Net, change: &str, orders: &[Order]) -> Result<String, Fail> {
    let told = runs_of(alloc, net, change)?;
    let mut start = vec![in alloc; false; net.len() as usize]?;
    net.expand(told.nodes(), &mut start);
    let inputs = net.circuit().inputs() as usize;
    if inputs > start.len() || !net.settled(&start[..inputs], &start) {
        return Err("no stable start".into());
    }
    words_from(alloc, net, &start, told.input(), orders)
}

fn words_from(
    alloc: Global,
    net: &Net,
    start: &[bool],
    input: &[bool],
    orders: &[Order],
) -> Result<String, Fail>
    requires start { IsStableStart net.now start.now }
    requires input { IsInput net.now input.now }
{
    let change = Change { net, start, input };
    let variables = net.len() as usize;
    let mut a = vec![in alloc; Tri::Zero; variables]?;
    let mut b = vec![in alloc; Tri::Zero; variables]?;
    let mut room = Room {
        ranks: vec![in alloc; 0u32; variables]?,
        when: vec![in alloc; 0u32; variables]?,
        work: vec![in alloc; Tri::Zero; variables]?,
        front: Front::new(alloc, net)?,
    };
    let _ = make_passes::<Brand>(&change, &mut a, &mut b, &mut room, Blank::new(1));
    let results = Results {
        a: &a,
        ranks: &room.ranks,
        b: &b,
        when: &room.when,
    };
    under(alloc, &change, &results, orders)
}

fn under(
    alloc: Global,
    change: &Change,
    results: &Results,
    orders: &[Order],
) -> Result<String, Fail>
    requires { AreResultsOfBoth change.now.net.now change.now.start.now change.now.input.now
        results.now.a.now results.now.ranks.now results.now.b.now results.now.when.now }
{
    let free = Free::build(alloc, change.net)?;
    let at_rest = Word {
        first: false,
        changes: Count::Exact(0),
    };
    let mut told = vec![in alloc; at_rest; change.net.len() as usize]?;
    tell(
        alloc,
        change.net,
        &free,
        change.start,
        change.input,
        results.a,
        1000,
        &mut told,
    )?;
    let ordered = OrderedChange {
        net: change.net,
        start: change.start,
        input: change.input,
        orders,
        held: &[],
        cap: 1000,
    };
    tell_under(alloc, &ordered, &mut told)?;
    let ends = ends_under(alloc, &ordered, &told)?;
    let mut text = String::new(alloc);
    for node in 0..change.net.circuit().nodes() {
        push_node(&mut text, change.start, &ends, &told, node as usize)?;
    }
    Ok(text)
}

fn push_node(
    text: &mut String,
    start: &[bool],
    ends: &[Tri],
    told: &[Word],
    node: usize,
) -> Result<(), Fail> {
    let alloc = *text.allocator();
    let start = start.get(node).copied().ok_or("no start")?;
    let end = ends.get(node).copied().ok_or("no end")?;
    let word = told.get(node).copied().ok_or("no word")?;
    text.push(letter_of(Tri::of(start)))?;
    text.push(letter_of(end))?;
    let changes = match word.changes {
        Count::Exact(changes) => format!(in alloc; " {changes}, ")?,
        Count::Many => format!(in alloc; " -, ")?,
    };
    Ok(text.push_str(changes.as_str())?)
}

fn order(first: u32, second: u32) -> Order {
    Order {
        first,
        second,
        nth: 1,
    }
}

#[test]
fn words_under_orders(rt: HostRuntime) -> Result<(), Fail> {
    let falls = "runs 1\nstart clock=1 d=0 clear_n=1 sb=1 s=0 r=1 rb=1 q=1 qb=0\n\
                 input clock=0 d=0 clear_n=1\nend";
    // Without an order r may pulse, and q lose its value. With one the clock reaches r before s does.
    let lost = words(rt.alloc(), FLIP_FLOP, falls, &[])?;
    assert_eq!(rt;
        lost.as_str(),
        "10 1, 00 0, 11 0, 10 1, 01 1, 11 2, 11 0, 1X -, 0X -, "
    );
    let kept = words(rt.alloc(), FLIP_FLOP, falls, &[order(15, 14)])?;
    assert_eq!(rt;
        kept.as_str(),
        "10 1, 00 0, 11 0, 10 1, 01 1, 11 0, 11 0, 11 0, 00 0, "
    );
    // The first latch opens before the second has closed, unless the clock is faster at n5.
    let rises =
        "runs 1\nstart d=1 clk=0 n4=1 cn=1 n1=0 q_bar=1 q=0 n6=0 n5=1 q_bar_n=1 dn=0 n3=1 n2=1\n\
                 input d=1 clk=1\nend";
    let open = words(rt.alloc(), LATCHES, rises, &[])?;
    assert_eq!(rt;
        open.as_str(),
        "11 0, 01 1, 10 1, 10 1, 00 0, 1X -, 0X -, 01 1, 11 2, 10 1, 01 1, 11 0, 10 1, "
    );
    let closed = words(rt.alloc(), LATCHES, rises, &[order(23, 22)])?;
    assert_eq!(rt;
        closed.as_str(),
        "11 0, 01 1, 10 1, 10 1, 00 0, 11 0, 00 0, 01 1, 11 0, 10 1, 01 1, 11 0, 10 1, "
    );
    let pulse = "runs 1\nstart x=0 m=0 z=0\ninput x=1\nend";
    let free = words(rt.alloc(), TWICE, pulse, &[])?;
    assert_eq!(rt; free.as_str(), "01 1, 00 2, 00 4, ");
    let one = words(rt.alloc(), TWICE, pulse, &[order(3, 4)])?;
    assert_eq!(rt; one.as_str(), "01 1, 00 2, 00 4, ");
    let both = words(rt.alloc(), TWICE, pulse, &[order(3, 4), order(4, 3)])?;
    assert_eq!(rt; both.as_str(), "01 1, 00 0, 00 0, ");
    Ok(())
}
