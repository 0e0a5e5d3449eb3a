//! Circuits that are read and printed: each spelling once, and the circuits of small numbers.

use hz_bench::print;
use hz_gen::make;
use hz_samples::circuit_of;
use hz_script::print_script;
use std::alloc::Global;
use std::test::Fail;

// The circuit of a netlist, printed.
fn printed(alloc: Global, text: &str) -> Result<Vec<u8>, Fail> {
    let circuit = circuit_of(alloc, text)?;
    Ok(print(alloc, &circuit)?)
}

#[test]
fn circuits_are_read_and_printed(rt: HostRuntime) -> Result<(), Fail> {
    let rows = [
        ("", ""),
        (
            "Input ( a )\r\n\tg=buf( a )#c\nOUTPUT(g)",
            "INPUT(a)\nOUTPUT(g)\ng = BUFF(a)\n",
        ),
        (
            "OUTPUT(h)\ninput(OUTPUT)\nINPUT($b[1])\noutput(OUTPUT)\nOUTPUT(h)\nAND=nand(h,OUTPUT)\nh = and(AND, AND, $b[1])\n",
            "INPUT(OUTPUT)\nINPUT($b[1])\nOUTPUT(h)\nOUTPUT(OUTPUT)\nAND = NAND(h, OUTPUT)\nh = AND(AND, AND, $b[1])\n",
        ),
        (
            "INPUT(a)\ne = or(a)\nf = NOR(e)\ng = xOR(f, g)\nh = XNOR(g)\ni = NOT(h)\nj = BUFF(i)\n",
            "INPUT(a)\ne = OR(a)\nf = NOR(e)\ng = XOR(f, g)\nh = XNOR(g)\ni = NOT(h)\nj = BUFF(i)\n",
        ),
        (
            "INPUT(a)\nOUTPUT(y)\nq = dff(d)\nd = AND(a, q)\ny = NOT(q)\n",
            "INPUT(a)\nOUTPUT(y)\nOUTPUT(d)\nq = DFF(d)\nd = AND(a, q)\ny = NOT(q)\n",
        ),
    ];
    for (text, wanted) in rows {
        assert_eq!(rt; printed(rt.alloc(), text)?.as_slice(), wanted.as_bytes());
    }
    Ok(())
}

// The circuit of a number, printed.
fn generated(alloc: Global, number: u32) -> Result<Vec<u8>, Fail> {
    let (circuit, _script) = make(alloc, number)?;
    Ok(print(alloc, &circuit)?)
}

// The script of a number, printed.
fn generated_script(alloc: Global, number: u32) -> Result<Vec<u8>, Fail> {
    let (circuit, script) = make(alloc, number)?;
    Ok(print_script(alloc, &circuit, &script)?)
}

#[test]
fn generated_circuits(rt: HostRuntime) -> Result<(), Fail> {
    let rows = [
        (
            1,
            "INPUT(go)\nINPUT(x)\nn = NOT(go)\np = AND(go, n)\nr1 = OR(p, r1)\n\
            a1 = AND(go, x)\nb1 = AND(n, x)\nm1 = OR(a1, b1)\n",
            "start go=0 x=1 r1=0\nchange go=1\n",
        ),
        (
            2,
            "INPUT(go)\nINPUT(x)\nn = NOT(go)\np = AND(go, n)\nr1 = OR(p, r2)\nr2 = BUFF(r1)\n\
            a1 = AND(go, x)\nb1 = AND(n, x)\nm1 = OR(a1, b1)\n\
            a2 = AND(go, m1)\nb2 = AND(n, m1)\nm2 = OR(a2, b2)\n",
            "start go=0 x=1 r2=0\nchange go=1\n",
        ),
    ];
    for (number, netlist, script) in rows {
        assert_eq!(rt;
            generated(rt.alloc(), number)?.as_slice(),
            netlist.as_bytes()
        );
        assert_eq!(rt;
            generated_script(rt.alloc(), number)?.as_slice(),
            script.as_bytes()
        );
    }
    Ok(())
}
