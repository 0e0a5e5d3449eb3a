//! A buffer in front of a sink.
ghost use Rattle.std.specs.Prelude.{◌≡◌, ◌≢◌, ◌+◌, ◌-◌, ◌<◌, ◌≤◌, [], ◌++◌, length, OnOk};
ghost use Rattle.hz_outside.specs.Counts.{Rose};
ghost use Rattle.hz_outside.specs.WrittenText.{Took, TookPrefix, with_more};

use super::copying::copy_short;
use super::fault::PutFault;
use super::sink::Sink;
use std::marker::Model;

/// How many bytes the buffer holds.
const GATHERED: usize = 65_536;

/// A sink with a buffer of 64 KiB in front of it, so that a text of many lines takes few puts.
///
/// A piece waits in the buffer until the next one finds no room there, or until a flush. A piece that is longer than the
/// buffer is put at once, after what waited. If a put of the buffer fails, what was not put of it is lost. If it is out of
/// memory, the buffer keeps what waited, and takes nothing of the piece.
#[derive(Drop)]
pub struct Gathered<K: Drop> {
    out: K,
    // What waits: the first `held` bytes of the buffer.
    buffer: [u8; GATHERED],
    held: usize,
}

impl<K: Drop> Model for Gathered<K> {
    ghost use Rattle.std.specs.Prelude.{◌≤◌, take};
    ghost use Rattle.hz_outside.specs.Gathered.{Gathering};
    ghost use Rattle.hz_outside.specs.declared.gathered.TheConstants.{GATHERED};

    ghost Value = { Gathering K };

    ghost view = { λ sink. record { out = sink.out; gathered = take sink.held sink.buffer } };

    ghost invariant = { λ sink. sink.held ≤ GATHERED };
}

impl<K: Sink + Drop> Gathered<K> {
    /// An empty buffer in front of this sink.
    pub fn new(out: K) -> Gathered<K>
        ensures { result ≡ record { out = out; gathered = [] } }
    {
        Gathered {
            out,
            buffer: [0; GATHERED],
            held: 0,
        }
    }

    // Lets a piece wait in the buffer.
    fn hold(&mut self, piece: &[u8])
        requires { length self.old.gathered + length piece.now ≤ GATHERED }
        ensures { self.new ≡ record self.old { gathered = self.old.gathered ++ piece.now } }
    {
        let start = self.held;
        self.held = start + piece.len();
        copy_short(&mut self.buffer[start..self.held], piece);
    }

    // Puts what waits in the buffer, which is empty then, unless the answer is out of memory.
    fn pass_on(&mut self) -> Result<(), PutFault>
        ensures whole { OnOk result
            (Took (K.output self.old.out) self.old.gathered (K.output self.new.out)) }
        ensures emptied { OnOk result (self.new.gathered ≡ []) }
        ensures failed { result ≡ Err PutFault.Failed → TookPrefix
            (with_more (K.output self.old.out) self.old.gathered)
            []
            (with_more (K.output self.new.out) self.new.gathered) }
        ensures memory { result ≡ Err PutFault.Memory → Took
            (with_more (K.output self.old.out) self.old.gathered)
            []
            (with_more (K.output self.new.out) self.new.gathered) }
        ensures counted { result ≡ Err PutFault.Failed →
            Rose (K.faults self.old.out) (K.faults self.new.out) }
        ensures quiet { result ≢ Err PutFault.Failed →
            K.faults self.new.out ≡ K.faults self.old.out }
        ensures never_falls { K.faults self.old.out ≤ K.faults self.new.out }
    {
        if self.held == 0 {
            return Ok(());
        }
        match self.out.put(&self.buffer[..self.held]) {
            Err(PutFault::Memory) => Err(PutFault::Memory),
            answer => {
                self.held = 0;
                answer
            }
        }
    }

    // Puts a piece for which the buffer has no room. Few pieces are so: with them kept apart, `put` is short enough to be
    // inlined.
    #[cold]
    #[inline(never)]
    fn put_beyond(&mut self, piece: &[u8]) -> Result<(), PutFault>
        requires { 0 < length piece.now }
        ensures whole { OnOk result (Took
            (with_more (K.output self.old.out) self.old.gathered)
            piece.now
            (with_more (K.output self.new.out) self.new.gathered)) }
        ensures failed { result ≡ Err PutFault.Failed → TookPrefix
            (with_more (K.output self.old.out) self.old.gathered)
            piece.now
            (with_more (K.output self.new.out) self.new.gathered) }
        ensures memory { result ≡ Err PutFault.Memory → Took
            (with_more (K.output self.old.out) self.old.gathered)
            []
            (with_more (K.output self.new.out) self.new.gathered) }
        ensures counted { result ≡ Err PutFault.Failed →
            Rose (K.faults self.old.out) (K.faults self.new.out) }
        ensures quiet { result ≢ Err PutFault.Failed →
            K.faults self.new.out ≡ K.faults self.old.out }
        ensures never_falls { K.faults self.old.out ≤ K.faults self.new.out }
    {
        self.pass_on()?;
        if piece.len() > GATHERED {
            return self.out.put(piece);
        }
        self.hold(piece);
        Ok(())
    }
}

impl<K: Sink + Drop> Sink for Gathered<K> {
    ghost output = { λ sink. with_more (K.output sink.out) sink.gathered };

    ghost faults = { λ sink. K.faults sink.out };

    fn put(&mut self, piece: &[u8]) -> Result<(), PutFault> {
        if piece.len() > GATHERED - self.held {
            return self.put_beyond(piece);
        }
        self.hold(piece);
        Ok(())
    }

    fn flush(&mut self) -> Result<(), PutFault> {
        self.pass_on()?;
        self.out.flush()
    }
}
