//! Why a text is no dump.
ghost use Rattle.std.specs.Prelude.{◌≡◌};

use hz_core::Memory;
use std::alloc::AllocError;
use thiserror::Error;

/// Why a dump is not read.
#[derive(Clone, Copy, Debug, PartialEq, Eq, Error)]
pub enum VcdFault {
    /// The text is no dump. No dump begins with its words up to the one with this number, counted from 1. If the text ends
    /// too early, the number is one more than it has words.
    #[error("no dump has word {token} there")]
    Form { token: u32 },
    /// Memory ran out.
    #[error("out of memory")]
    Memory,
}

impl From<Memory> for VcdFault {
    ghost use Rattle.hz_vcd.specs.declared.fault.VcdFault.TheVariants as fault;

    ghost from_gives = { λ _ made. made ≡ fault.Memory };

    fn from(_memory: Memory) -> VcdFault {
        VcdFault::Memory
    }
}

impl From<AllocError> for VcdFault {
    ghost use Rattle.hz_vcd.specs.declared.fault.VcdFault.TheVariants as fault;

    ghost from_gives = { λ _ made. made ≡ fault.Memory };

    fn from(_error: AllocError) -> VcdFault {
        VcdFault::Memory
    }
}
