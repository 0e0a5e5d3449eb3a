// The circuit of a number.

ghost use Rattle.std.specs.Prelude.{◌≡◌, ◌-◌, ◌∷◌, [], IfOk, OnOk};
ghost use Rattle.hz_core.specs.Netlist.{empty_netlist};
ghost use Rattle.hz_options.specs.Numbers.{IsDemoNumber};
ghost use Rattle.hz_gen.specs.Demo.{demo_netlist};
ghost use Rattle.hz_gen.specs.BuiltDemo.{inputs_netlist, ring_netlist, chain_netlist};

use crate::gate::{add_connected, add_numbered};
use crate::node::{GO, INVERTER, PULSE, X, ring_gate};
use hz_core::{Circuit, Kind, Memory, NameHashing};
use std::alloc::Global;

// Makes the circuit of a number.
pub(crate) fn make_circuit(alloc: Global, n: u32) -> Result<Circuit, Memory>
    requires { IsDemoNumber n }
    ensures { IfOk result (λ circuit. circuit ≡ demo_netlist n) }
{
    let mut circuit = Circuit::with_names(alloc, NameHashing::plain(), nodes_of(n))?;
    add_inputs(&mut circuit)?;
    add_ring(&mut circuit, n)?;
    add_chain(&mut circuit, n)?;
    Ok(circuit)
}

// How many nodes the circuit of a number has.
fn nodes_of(n: u32) -> usize
    requires { IsDemoNumber n }
{
    4 * n as usize + 4
}

// Adds the inputs.
fn add_inputs(circuit: &mut Circuit) -> Result<(), Memory>
    requires { circuit.old ≡ empty_netlist }
    ensures { OnOk result (circuit.new ≡ inputs_netlist) }
{
    circuit.add_input(b"go")?;
    circuit.add_input(b"x")?;
    Ok(())
}

// Adds the gates that give a pulse, and the ring. Its last gate is connected when it is there.
fn add_ring(circuit: &mut Circuit, n: u32) -> Result<(), Memory>
    requires number { IsDemoNumber n }
    requires inputs { circuit.old ≡ inputs_netlist }
    ensures { OnOk result (circuit.new ≡ chain_netlist n 0) }
{
    add_pulse(circuit)?;
    add_buffers(circuit, n)?;
    circuit.connect(ring_gate(1), ring_gate(n))
}

// Adds the gates that give a pulse, and the gate that takes it into the ring.
fn add_pulse(circuit: &mut Circuit) -> Result<(), Memory>
    requires { circuit.old ≡ inputs_netlist }
    ensures { OnOk result (circuit.new ≡ ring_netlist (3 ∷ []) 0) }
{
    add_connected(circuit, b"n", Kind::Not, &[GO])?;
    add_connected(circuit, b"p", Kind::And, &[GO, INVERTER])?;
    add_numbered(circuit, b'r', 1, Kind::Or, &[PULSE])
}

// Adds the buffers of the ring, each of which reads the gate before it.
fn add_buffers(circuit: &mut Circuit, n: u32) -> Result<(), Memory>
    requires number { IsDemoNumber n }
    requires pulse { circuit.old ≡ ring_netlist (3 ∷ []) 0 }
    ensures { OnOk result (circuit.new ≡ ring_netlist (3 ∷ []) (n - 1)) }
{
    for number in 2..n + 1 {
        add_numbered(circuit, b'r', number, Kind::Buff, &[ring_gate(number - 1)])?;
    }
    Ok(())
}

// Adds the chain of multiplexers. Each reads the one before it, the first reads `x`.
fn add_chain(circuit: &mut Circuit, n: u32) -> Result<(), Memory>
    requires number { IsDemoNumber n }
    requires ring { circuit.old ≡ chain_netlist n 0 }
    ensures { OnOk result (circuit.new ≡ chain_netlist n n) }
{
    let mut before = X;
    for number in 1..n + 1 {
        let first = circuit.nodes();
        add_numbered(circuit, b'a', number, Kind::And, &[GO, before])?;
        add_numbered(circuit, b'b', number, Kind::And, &[INVERTER, before])?;
        add_numbered(circuit, b'm', number, Kind::Or, &[first, first + 1])?;
        before = first + 2;
    }
    Ok(())
}
