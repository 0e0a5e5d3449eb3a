//! The bursts of a script, and to which states they apply.
ghost use Rattle.std.specs.Prelude.{◌≡◌, ◌<◌, ◌≤◌, length, All, IfOk, Some, slice_get};
ghost use Rattle.std.specs.List.{list_all};
ghost use Rattle.hz_core.specs.Netlist.{IsCircuit};
ghost use Rattle.hz_script.specs.ScriptText.{IsScriptFor};
ghost use Rattle.hz_explore.specs.Bursts.{applies, bursts_of, each_input, is_changed};
ghost use Rattle.hz_explore.specs.Inside.{bursts_in, most_bursts};

use hz_core::Memory;
use hz_net::Net;
use hz_script::Script;
use std::alloc::Global;

/// The bursts of a script: its changes, or each input alone if it has none.
#[derive(Drop)]
pub(crate) struct Bursts<'a> {
    script: &'a Script,
    alone: Vec<(u32, bool)>,
}

impl<'a> Bursts<'a> {
    // Those of a script for a network.
    pub(crate) fn new(alloc: Global, net: &Net, script: &'a Script) -> Result<Bursts<'a>, Memory>
        requires circuit { IsCircuit net.now }
        requires script { IsScriptFor net.now script.now }
        ensures bursts { IfOk result
            (λ bursts. bursts_in bursts ≡ bursts_of net.now.inputs script.now.changes) }
        ensures few { IfOk result (λ bursts. length (bursts_in bursts) ≤ most_bursts) }
        ensures inputs { IfOk result (λ bursts. All (All (λ pair. pair.0 < net.now.inputs))
            (bursts_in bursts)) }
    {
        let alone = list_inputs(alloc, net.circuit().inputs())?;
        Ok(Bursts { script, alone })
    }

    // How many there are.
    pub(crate) fn len(&self) -> usize
        ensures { result ≡ length (bursts_in self.now) }
    {
        match self.script.changes() {
            0 => self.alone.len(),
            changes => changes,
        }
    }

    // One of them, numbered from 0.
    pub(crate) fn get(&self, number: usize) -> &[(u32, bool)]
        requires { number < length (bursts_in self.now) }
        ensures { slice_get (bursts_in self.now) number ≡ Some result.now }
    {
        if self.script.changes() == 0 {
            &self.alone[number..number + 1]
        } else {
            self.script.change(number)
        }
    }
}

// Each input, first as it falls and then as it rises.
fn list_inputs(alloc: Global, inputs: u32) -> Result<Vec<(u32, bool)>, Memory>
    ensures { IfOk result (λ pairs. pairs.items ≡ each_input inputs) }
{
    let mut pairs = Vec::new(alloc);
    for input in 0..inputs {
        pairs.push((input, false))?;
        pairs.push((input, true))?;
    }
    Ok(pairs)
}

// Whether a burst applies to a state: it changes something, and each of its inputs changes by it.
pub(crate) fn applies(state: &[bool], burst: &[(u32, bool)]) -> bool
    requires { All (λ pair. pair.0 < length state.now) burst.now }
    ensures { result ≡ applies state.now burst.now }
{
    if burst.is_empty() {
        return false;
    }
    change_all(state, burst)
}

// Whether each input changes.
fn change_all(state: &[bool], burst: &[(u32, bool)]) -> bool
    requires { All (λ pair. pair.0 < length state.now) burst.now }
    ensures { result ≡ list_all (is_changed state.now) burst.now }
{
    for (input, bit) in burst {
        if state[*input as usize] == *bit {
            return false;
        }
    }
    true
}
