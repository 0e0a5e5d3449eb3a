//! The first wrong words of dumps. What the job `vcd` writes stands in `tests/run`.

use hz_net::Net;
use hz_samples::net_of;
use hz_vcd::{VcdFault, read};
use std::alloc::Global;
use std::test::Fail;

// The number of the first wrong word of a text of two parts, or 0.
fn first_wrong_of(alloc: Global, net: &Net, front: &str, back: &str) -> Result<u32, Fail> {
    let text = format!(in alloc; "{front}{back}")?;
    first_wrong(alloc, net, text.as_bytes())
}

fn first_wrong(alloc: Global, net: &Net, bytes: &[u8]) -> Result<u32, Fail> {
    if bytes.len() > 1000 {
        return Err("long".into());
    }
    match read(alloc, net, bytes) {
        Ok(_) => Ok(0),
        Err(VcdFault::Form { token }) => Ok(token),
        Err(VcdFault::Memory) => Err("memory".into()),
    }
}

// Rows of words of a dump of the netlist with the input a, and the number of the first wrong one, or 0.
#[test]
fn first_wrong_words(rt: HostRuntime) -> Result<(), Fail> {
    const HEAD: &str =
        "$timescale 1 ns $end $scope module hazard $end $var wire 1 ! \\a $end $upscope $end $enddefinitions $end ";
    let rows = [
        ("", "", 1),
        (HEAD, "#0 $dumpvars 0! $end", 0),
        (HEAD, "#0 $dumpvars 1! $end #1 0! #2 1!", 0),
        (HEAD, "#0 $dumpvars 1! $end #1", 24),
        (HEAD, "#0 $dumpvars 1! $end #1 1!", 24),
        (HEAD, "#0 $dumpvars 1! $end #1 0! 0!", 25),
        (HEAD, "#0 $dumpvars 1! $end #1 0! 1!", 25),
        (HEAD, "#0 $dumpvars 1! $end #1 0! #3", 25),
        (HEAD, "#0 $comment a $end $dumpvars 1! $end #1 0! #3", 20),
        ("$date $end $comment $timescale $end ", HEAD, 24),
        ("$date $end $comment $timescale", "", 5),
    ];
    let net = net_of(rt.alloc(), "INPUT(a)\n")?;
    for (front, back, wrong) in rows {
        assert_eq!(rt; first_wrong_of(rt.alloc(), &net, front, back)?, wrong);
    }
    Ok(())
}
