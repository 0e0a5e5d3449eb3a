//! The frontier of a pass.
ghost use Rattle.std.specs.Prelude.{◌≡◌, length, IfOk};
ghost use Rattle.hz_net.specs.Network.{network_of};

use hz_core::Memory;
use hz_net::Net;
use std::alloc::Global;
use std::marker::Model;

/// Room for the frontier of a pass over one network: the variables that the round before changed, and those that the
/// present round changes. It is empty before and after each pass. Contracts see for how many variables it has room.
#[derive(Debug, Drop)]
pub struct Front {
    pub(crate) due: Vec<u32>,
    pub(crate) changed: Vec<u32>,
}

impl Model for Front {
    ghost use Rattle.std.specs.Prelude.{ℕ, vec_capacity};

    ghost Value = { ℕ };

    ghost use Rattle.hz_pass.specs.Inside.{HoldsFront};

    ghost view = { λ front. vec_capacity front.changed };

    ghost invariant = { HoldsFront };
}

impl Front {
    /// The room that passes over a network need.
    pub fn new(alloc: Global, net: &Net) -> Result<Front, Memory>
        ensures { IfOk result (λ front. front ≡ length (network_of net.now)) }
    {
        let variables = net.len() as usize;
        let due = Vec::with_capacity(alloc, variables)?;
        let changed = Vec::with_capacity(alloc, variables)?;
        Ok(Front { due, changed })
    }
}
