//! Scripts and patterns that are read and printed, and a run text that is made. Texts that are refused, patterns that come in parts, and
//! run texts that are read and printed stand in `tests/run`.

use hz_core::Circuit;
use hz_gmw::Run;
use hz_line::MAX_TEXT;
use hz_pattern_text::{print_patterns, read_patterns};
use hz_run_text::RunText;
use hz_samples::circuit_of;
use hz_script::{print_script, read_script};
use std::alloc::Global;
use std::test::Fail;

const BUFFER: &str = "INPUT(a)\nOUTPUT(g)\ng = BUFF(a)\n";

const CONJUNCTION: &str = "INPUT(a)\nINPUT(b)\ng = AND(a, b)\n";

// A script of a circuit, read and printed.
fn script_again(alloc: Global, netlist: &str, text: &[u8]) -> Result<Vec<u8>, Fail> {
    let circuit = circuit_of(alloc, netlist)?;
    script_of(alloc, &circuit, text)
}

fn script_of(alloc: Global, circuit: &Circuit, text: &[u8]) -> Result<Vec<u8>, Fail> {
    if text.len() > MAX_TEXT {
        return Err("a long text".into());
    }
    let script = read_script(alloc, circuit, text)?;
    Ok(print_script(alloc, circuit, &script)?)
}

#[test]
fn scripts(rt: HostRuntime) -> Result<(), Fail> {
    let text = b"Start a=0 # x\nchange  a = 1";
    let printed = script_again(rt.alloc(), BUFFER, text.as_slice())?;
    assert_eq!(rt; printed.as_slice(), b"start a=0\nchange a=1\n".as_slice());
    Ok(())
}

// Patterns of a circuit, read and printed.
fn patterns_again(alloc: Global, netlist: &str, text: &[u8]) -> Result<Vec<u8>, Fail> {
    let circuit = circuit_of(alloc, netlist)?;
    patterns_of(alloc, &circuit, text)
}

fn patterns_of(alloc: Global, circuit: &Circuit, text: &[u8]) -> Result<Vec<u8>, Fail> {
    if text.len() > MAX_TEXT {
        return Err("a long text".into());
    }
    let patterns = read_patterns(alloc, circuit, text)?;
    Ok(print_patterns(alloc, circuit, &patterns)?)
}

#[test]
fn patterns(rt: HostRuntime) -> Result<(), Fail> {
    let rows = [
        (CONJUNCTION, "", ""),
        (BUFFER, "HOLD g=1\nFrom 0 to 1", "hold g=1\nfrom 0 to 1\n"),
        (
            CONJUNCTION,
            "HOLD g=1\nFrom 10 to 01 # x\nfrom 11 TO 00",
            "hold g=1\nfrom 10 to 01\nfrom 11 to 00\n",
        ),
        ("g = NOT(g)\n", "from - to -", "from - to -\n"),
    ];
    for (netlist, text, wanted) in rows {
        let printed = patterns_again(rt.alloc(), netlist, text.as_bytes())?;
        assert_eq!(rt; printed.as_slice(), wanted.as_bytes());
    }
    Ok(())
}

#[test]
fn a_run_text_that_is_made(rt: HostRuntime) -> Result<(), Fail> {
    let mut made = RunText::new(rt.alloc(), &[true; 4], &[false; 2])?;
    made.add_run(Run::new(rt.alloc()), Some(Run::new(rt.alloc())))?;
    assert_eq!(rt;
        (made.runs(), made.nodes().len(), made.input().len()),
        (1, 4, 2)
    );
    Ok(())
}
