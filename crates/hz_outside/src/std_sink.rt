//! Standard output: the trusted edge.
ghost use Rattle.std.specs.Prelude.{◌≡◌};

use super::whole_sink::WholeSink;
use super::write_some::WriteSome;
use std::io::Print;

/// What a runtime prints to, which shows nothing of what was written.
#[derive(Drop)]
pub struct Printed<'r, R: Print> {
    rt: &'r R,
}

impl<'r, R: Print> WriteSome for Printed<'r, R> {
    ghost use Rattle.std.specs.Prelude.{None};

    ghost written = { λ _. None };

    fn write_some(&mut self, bytes: &[u8]) -> Option<usize> {
        self.rt.write_some(bytes).ok()
    }
}

/// Standard output.
pub type StdSink<'r, R> = WholeSink<Printed<'r, R>>;

impl<'r, R: Print> WholeSink<Printed<'r, R>> {
    /// What the runtime prints to. Nothing was put so far.
    pub fn new(rt: &'r R) -> StdSink<'r, R>
        ensures { result.faults ≡ 0 }
    {
        WholeSink::over(Printed { rt })
    }
}
