//! A sink over what takes some bytes at a time.
ghost use Rattle.std.specs.Prelude.{◌≡◌, true, false};
ghost use Rattle.hz_outside.specs.WrittenText.{settled, Took, TookPrefix};

use super::fault::PutFault;
use super::sink::Sink;
use super::write_some::WriteSome;
use std::marker::Model;

/// A sink that writes each piece at once, by as many writes as that takes.
#[derive(Drop)]
pub struct WholeSink<W: Drop> {
    to: W,
    faults: u64,
}

impl<W: Drop> Model for WholeSink<W> {
    ghost use Rattle.hz_outside.specs.WholeSink.{Counted};

    ghost Value = { Counted W };

    ghost view = { λ sink. record { to = sink.to; faults = sink.faults } };
}

impl<W: Drop> WholeSink<W> {
    /// A sink that writes there. Nothing was put so far.
    pub fn over(to: W) -> WholeSink<W>
        ensures { result ≡ record { to = to; faults = 0 } }
    {
        WholeSink { to, faults: 0 }
    }
}

impl<W: WriteSome + Drop> Sink for WholeSink<W> {
    ghost use Rattle.hz_outside.specs.WrittenText.{settled};

    ghost output = { λ sink. settled (W.written sink.to) };

    ghost faults = { λ sink. sink.faults };

    /// Writes the piece. The count rises at a write that fails and at one that takes nothing, and at nothing else.
    fn put(&mut self, piece: &[u8]) -> Result<(), PutFault> {
        if write_all(&mut self.to, piece) {
            return Ok(());
        }
        self.faults = self.faults.saturating_add(1);
        Err(PutFault::Failed)
    }

    fn flush(&mut self) -> Result<(), PutFault> {
        Ok(())
    }
}

/// Writes until nothing is left, or until a write fails or takes nothing.
fn write_all<W: WriteSome>(to: &mut W, piece: &[u8]) -> bool
    ensures whole { result ≡ true →
        Took (settled (W.written to.old)) piece.now (settled (W.written to.new)) }
    ensures front { result ≡ false →
        TookPrefix (settled (W.written to.old)) piece.now (settled (W.written to.new)) }
{
    let mut rest = piece;
    while !rest.is_empty() {
        let Some(count) = to.write_some(rest) else {
            return false;
        };
        if count == 0 {
            return false;
        }
        rest = &rest[count..];
    }
    true
}
