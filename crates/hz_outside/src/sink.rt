//! Where output goes.
ghost use Rattle.std.specs.Prelude.{◌≡◌, ◌≢◌, ℕ, ◌<◌, ◌≤◌, List, [], length, OnOk};
ghost use Rattle.hz_outside.specs.Counts.{Rose};
ghost use Rattle.hz_outside.specs.WrittenText.{Output, Took, TookPrefix};

use super::fault::PutFault;

/// A writer of pieces. A piece that was put may wait in the sink, until `flush` or a later put writes it.
///
/// `output` is what was written so far, if the sink shows it, and what waits. `faults` counts the calls that answered
/// `Failed`, and no others. After a call that failed, what is written and what waits are a prefix of all that was put;
/// the rest is lost. After a call that answered `Memory` nothing is lost, and nothing of the piece was taken.
pub trait Sink {
    ghost output: { Self → Output };

    ghost faults: { Self → ℕ };

    /// Takes the whole piece: writes it, or lets it wait.
    fn put(&mut self, piece: &[u8]) -> Result<(), PutFault>
        requires { 0 < length piece.now }
        ensures whole { OnOk result (Took (output self.old) piece.now (output self.new)) }
        ensures failed { result ≡ Err PutFault.Failed →
            TookPrefix (output self.old) piece.now (output self.new) }
        ensures memory { result ≡ Err PutFault.Memory →
            Took (output self.old) [] (output self.new) }
        ensures counted { result ≡ Err PutFault.Failed → Rose (faults self.old) (faults self.new) }
        ensures quiet { result ≢ Err PutFault.Failed → faults self.new ≡ faults self.old }
        ensures never_falls { faults self.old ≤ faults self.new };

    /// Writes all that waits.
    fn flush(&mut self) -> Result<(), PutFault>
        ensures whole { OnOk result (Took (output self.old) [] (output self.new)) }
        ensures none_waits { OnOk result ((output self.new).waiting ≡ []) }
        ensures failed { result ≡ Err PutFault.Failed →
            TookPrefix (output self.old) [] (output self.new) }
        ensures memory { result ≡ Err PutFault.Memory →
            Took (output self.old) [] (output self.new) }
        ensures counted { result ≡ Err PutFault.Failed → Rose (faults self.old) (faults self.new) }
        ensures quiet { result ≢ Err PutFault.Failed → faults self.new ≡ faults self.old }
        ensures never_falls { faults self.old ≤ faults self.new };
}
