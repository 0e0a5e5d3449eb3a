//! What inputs bring about where nobody knows the start. What the job prints of it stands in `tests/run`.
ghost use Rattle.std.specs.Prelude.{◌≡◌, ◌≤◌, length};
ghost use Rattle.hz_net.specs.Network.{network_of, IsInput};

use hz_net::{Net, each_settles};
use hz_reset::Reset;
use hz_samples::{LATCH, letter_of, net_of};
use std::alloc::Global;
use std::test::Fail;

// The values of the latch's variables: as it comes up, and once it has settled under an input.
fn values(alloc: Global, held: &[Option<bool>], input: &[bool]) -> Result<String, Fail> {
    let net = net_of(alloc, LATCH)?;
    values_on(alloc, &net, held, input)
}

fn values_on(
    alloc: Global,
    net: &Net,
    held: &[Option<bool>],
    input: &[bool],
) -> Result<String, Fail> {
    let circuit = net.circuit();
    if held.len() != circuit.nodes() as usize || input.len() != circuit.inputs() as usize {
        return Err("another circuit".into());
    }
    let mut reset = Reset::new(alloc, net)?;
    let mut text = String::new(alloc);
    push_both(&mut text, &mut reset, net, held, input)?;
    Ok(text)
}

fn push_both(
    text: &mut String,
    reset: &mut Reset,
    net: &Net,
    held: &[Option<bool>],
    input: &[bool],
) -> Result<(), Fail>
    requires reset { length (network_of net.now) ≡ length reset.old }
    requires held { length held.now ≡ length net.now.names }
    requires input { IsInput net.now input.now }
{
    reset.begin(net, held);
    push_values(text, reset, net.len())?;
    // The law says that there is still a value for each variable.
    each_settles();
    reset.apply(net, input);
    push_values(text, reset, net.len())
}

fn push_values(text: &mut String, reset: &Reset, variables: u32) -> Result<(), Fail>
    requires { variables ≤ length reset.now }
{
    for var in 0..variables {
        text.push(letter_of(reset.get(var)))?;
    }
    text.push(' ')?;
    Ok(())
}

// Reset, hold, and an input that sets it; a held gate is forgotten.
#[test]
fn a_latch_from_an_unknown_start(rt: HostRuntime) -> Result<(), Fail> {
    let rows = [
        (None, [true, false], "XXXXXXXX 10011100 "),
        (None, [false, true], "XXXXXXXX 01100011 "),
        (None, [false, false], "XXXXXXXX 00XX0X0X "),
        (Some(true), [false, false], "XX1XXXXX 00XX0X0X "),
    ];
    for (held, input, text) in rows {
        let found = values(rt.alloc(), &[None, None, held, None], &input)?;
        assert_eq!(rt; found.as_str(), text);
    }
    Ok(())
}
