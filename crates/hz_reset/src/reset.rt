//! Values from an unknown start.
ghost use Rattle.std.specs.Prelude.{◌≡◌, ◌<◌, ◌≤◌, length, map, replicate, IfOk};
ghost use Rattle.std.specs.List.{slice_index_or, range_with_len};
ghost use Rattle.hz_core.specs.declared.tri.Tri.TheVariants.{Unknown};
ghost use Rattle.hz_net.specs.Network.{network_of, value_at, IsState, IsInput};
ghost use Rattle.hz_net.specs.TernaryStarts.{SettlesTo, held_value, unknown_start};
ghost use Rattle.hz_reset.specs.Room.{IsRoomFor};

use hz_core::{Memory, Tri};
use hz_lists::Steps;
use hz_net::Net;
use hz_pass::{Front, settle, spread_from};
use std::alloc::Global;
use std::marker::{Brand, Model};
use std::sync::ledger::{Blank, Ledger};

/// What is known of each variable of a network after some inputs, each of which stays until the circuit has settled.
///
/// `begin` is the moment at which the circuit comes up: only the held gates are known. `apply` gives it an input and lets it
/// settle, by Algorithms A and B of Brzozowski and Seger. Where a value is 0 or 1, the variable has it whatever state the
/// circuit came up in and whatever its delays are (`values_cover`). An X promises nothing. Contracts see the values.
#[derive(Debug, Drop)]
pub struct Reset {
    values: Vec<Tri>,
    room: Room,
}

impl Model for Reset {
    ghost use Rattle.std.specs.Prelude.{List};
    ghost use Rattle.hz_core.specs.declared.tri.Tri.{Tri};

    ghost Value = { List Tri };

    ghost use Rattle.hz_reset.specs.Inside.{HoldsReset};

    ghost view = { λ reset. reset.values.items };

    ghost invariant = { HoldsReset };
}

impl Reset {
    /// Nothing is known of any variable of the network. Only this call takes memory.
    pub fn new(alloc: Global, net: &Net) -> Result<Reset, Memory>
        ensures { IfOk result (λ reset. reset ≡ replicate (length (network_of net.now)) Unknown) }
    {
        let variables = net.len() as usize;
        Ok(Reset {
            values: vec![in alloc; Tri::Unknown; variables]?,
            room: Room {
                rounds: vec![in alloc; 0; variables]?,
                work: vec![in alloc; Tri::Unknown; variables]?,
                front: Front::new(alloc, net)?,
            },
        })
    }

    /// The circuit comes up: each node that is held has its bit, and nothing else is known. What was known before is forgotten.
    pub fn begin(&mut self, net: &Net, held: &[Option<bool>])
        requires net { length (network_of net.now) ≡ length self.old }
        requires held { length held.now ≡ length net.now.names }
        ensures { self.new ≡ unknown_start (network_of net.now) held.now }
    {
        net.keeps_shape();
        hold(held, self.values.as_mut_slice());
    }

    /// The inputs get these bits and stay, until the circuit has settled. No gate is held any more.
    pub fn apply(&mut self, net: &Net, input: &[bool])
        requires net { length (network_of net.now) ≡ length self.old }
        requires input { IsInput net.now input.now }
        ensures { SettlesTo (network_of net.now) input.now self.old self.new }
    {
        pass::<Brand>(
            net,
            input,
            self.values.as_mut_slice(),
            &mut self.room,
            Blank::new(1),
        );
    }

    /// What is known of a variable.
    pub fn get(&self, var: u32) -> Tri
        requires { var < length self.now }
        ensures { result ≡ value_at self.now var }
    {
        self.values[var as usize]
    }
}

// What a pass needs beside the values, used anew for each.
#[derive(Debug, Drop)]
struct Room {
    rounds: Vec<u32>,
    work: Vec<Tri>,
    front: Front,
}

// Writes the values of a start where nothing is known but what is held.
fn hold(held: &[Option<bool>], values: &mut [Tri])
    ensures { values.new ≡ map (λ i. held_value (slice_index_or held.now i None))
        (range_with_len 0 (length values.old)) }
{
    for i in 0..values.len() {
        values[i] = held_value(held, i);
    }
}

fn held_value(held: &[Option<bool>], var: usize) -> Tri
    ensures { result ≡ held_value (slice_index_or held.now var None) }
{
    match held.get(var) {
        Some(Some(bit)) => Tri::of(*bit),
        _ => Tri::Unknown,
    }
}

// Both passes over the values. They count their evaluations in a ledger of their own.
fn pass<L: Ledger>(net: &Net, input: &[bool], values: &mut [Tri], room: &mut Room, ledger: Blank)
    requires input { IsInput net.now input.now }
    requires values { IsState net.now values.old }
    requires room { IsRoomFor (length (network_of net.now)) room.old }
    requires name { ledger.name ≡ L.name }
    requires parts { ledger.parts ≡ L.parts }
    requires some { 0 < ledger.parts }
    ensures settled { SettlesTo (network_of net.now) input.now values.old values.new }
    ensures room { IsRoomFor (length (network_of net.now)) room.new }
{
    let (book, share) = ledger.open::<L>();
    let mut steps = Steps::new(book, share);
    let rounds = room.rounds.as_mut_slice();
    let work = room.work.as_mut_slice();
    let front = &mut room.front;
    spread_from(net, input, values, rounds, work, front, &mut steps);
    settle(net, input, values, rounds, work, front, &mut steps);
}
