//! Runs that keep orders of wires and come to rest, worked by hand.
ghost use Rattle.std.specs.Prelude.{◌≡◌, ◌<◌, length};
ghost use Rattle.hz_net.specs.Network.{IsInput};
ghost use Rattle.hz_net.specs.Starts.{IsStableStart};

use hz_gmw::Run;
use hz_net::Net;
use hz_orders::{Order, OrderedChange, kept_run};
use hz_samples::{net_of, runs_of};
use std::alloc::Global;
use std::test::Fail;

// A flip-flop of six gates with a clear: sb, s, r, rb, q, qb. The wires of r are the variables 14, 15 and 16: of s, clock and rb.
const FLIP_FLOP: &str =
    "INPUT(clock)\nINPUT(d)\nINPUT(clear_n)\nsb = NAND(rb, s)\ns = NAND(sb, clock, clear_n)\n\
     r = NAND(s, clock, rb)\nrb = NAND(r, d, clear_n)\nq = NAND(s, qb)\nqb = NAND(q, r, clear_n)\n";

// A pulse of one source, by the wires 3 and 4, which reconverges.
const TWICE: &str = "INPUT(x)\nm = XOR(x, x)\nz = OR(m, m)\n";

// The steps of the run that is found, each in brackets, and how often it changes each node.
fn found(alloc: Global, netlist: &str, change: &str, orders: &[Order]) -> Result<String, Fail> {
    let net = net_of(alloc, netlist)?;
    let told = runs_of(alloc, &net, change)?;
    let mut start = vec![in alloc; false; net.len() as usize]?;
    net.expand(told.nodes(), &mut start);
    let inputs = net.circuit().inputs() as usize;
    if inputs > start.len() || !net.settled(&start[..inputs], &start) {
        return Err("no stable start".into());
    }
    found_from(alloc, &net, &start, told.input(), orders)
}

fn found_from(
    alloc: Global,
    net: &Net,
    start: &[bool],
    input: &[bool],
    orders: &[Order],
) -> Result<String, Fail>
    requires start { IsStableStart net.now start.now }
    requires input { IsInput net.now input.now }
{
    let ordered = OrderedChange {
        net,
        start,
        input,
        orders,
        held: &[],
        cap: 1000,
    };
    let mut run = Run::new(alloc);
    let mut counts = vec![in alloc; 0u32; net.len() as usize]?;
    let kept = kept_run(alloc, &ordered, &mut run, &mut counts)?;
    let mut text = String::new(alloc);
    text.push_str(if kept { "kept" } else { "none" })?;
    for number in 0..run.steps() {
        push_step(&mut text, run.step(number))?;
    }
    for count in &counts[..net.circuit().nodes() as usize] {
        text.push_str(format!(in alloc; " {count}")?.as_str())?;
    }
    Ok(text)
}

fn push_step(text: &mut String, flips: &[u32]) -> Result<(), Fail> {
    let alloc = *text.allocator();
    text.push_str(" (")?;
    for var in flips {
        text.push_str(format!(in alloc; " {var}")?.as_str())?;
    }
    Ok(text.push_str(" )")?)
}

fn order(first: u32, second: u32) -> Order {
    Order {
        first,
        second,
        nth: 1,
    }
}

#[test]
fn runs_that_keep_orders(rt: HostRuntime) -> Result<(), Fail> {
    let falls = "runs 1\nstart clock=1 d=0 clear_n=1 sb=1 s=0 r=1 rb=1 q=1 qb=0\n\
                 input clock=0 d=0 clear_n=1\nend";
    // Without an order r may pulse, and q lose its value. With one the clock reaches r before s does.
    let lost = found(rt.alloc(), FLIP_FLOP, falls, &[])?;
    assert_eq!(rt;
        lost.as_str(),
        "kept ( 0 ) ( 12 ) ( 4 ) ( 10 ) ( 3 ) ( 11 ) ( 14 ) ( 5 ) ( 17 ) ( 23 ) ( 8 ) ( 21 ) ( 20 ) ( 7 ) ( 22 ) ( 15 ) \
         ( 5 ) ( 17 ) ( 23 ) 1 0 0 1 1 2 0 1 1"
    );
    let kept = found(rt.alloc(), FLIP_FLOP, falls, &[order(15, 14)])?;
    assert_eq!(rt;
        kept.as_str(),
        "kept ( 0 ) ( 12 ) ( 15 ) ( 4 ) ( 14 ) ( 10 ) ( 20 ) ( 3 ) ( 11 ) 1 0 0 1 1 0 0 0 0"
    );
    let pulse = "runs 1\nstart x=0 m=0 z=0\ninput x=1\nend";
    let one = found(rt.alloc(), TWICE, pulse, &[order(3, 4)])?;
    assert_eq!(rt;
        one.as_str(),
        "kept ( 0 ) ( 3 ) ( 1 ) ( 5 ) ( 2 ) ( 6 ) ( 4 ) ( 1 ) ( 5 ) ( 6 ) ( 2 ) 1 2 2"
    );
    // Each of the two wires must be first: they change in one step, and no pulse comes of it.
    let both = found(rt.alloc(), TWICE, pulse, &[order(3, 4), order(4, 3)])?;
    assert_eq!(rt; both.as_str(), "kept ( 0 ) ( 3 4 ) 1 0 0");
    // The wires of m wait for those of z, and these for m.
    let stuck = found(rt.alloc(), TWICE, pulse, &[order(5, 3), order(6, 4)])?;
    assert_eq!(rt; stuck.as_str(), "none 0 0 0");
    // No order of the network: of no variable, or kept by no run.
    let foreign = found(rt.alloc(), TWICE, pulse, &[order(3, 400)])?;
    assert_eq!(rt; foreign.as_str(), "none 0 0 0");
    Ok(())
}
