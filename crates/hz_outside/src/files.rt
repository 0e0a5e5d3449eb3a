//! Where files come from.
ghost use Rattle.std.specs.Prelude.{◌≡◌, ◌≢◌, ℕ, ◌+◌, ◌<◌, ◌≤◌, ◌↔◌, List, ◌++◌, length, vec_len, Option, IfOk, IfSome, OnOk};
ghost use Rattle.hz_outside.specs.Counts.{Rose};
ghost use Rattle.hz_outside.specs.Places.{other_place};

use super::fault::{LoadFault, Place};
use super::receive::Receive;
use std::alloc::Global;

/// A store of files by name, from which whole files are loaded.
///
/// `held` gives the bytes of each name, if the store shows them. `granted` says which loads may
/// be made. `faults` and `longs` count, for each place, the loads that failed and the files that were
/// too long, and nothing else. A load says nothing of what its own place grants afterwards.
pub trait Files {
    ghost use Rattle.hz_outside.specs.declared.fault.Place.{Place};

    ghost held: { Self → Option (List ℕ → List ℕ) };

    ghost granted: { Self → Place → List ℕ → ℕ → Type 0 };

    ghost faults: { Self → Place → ℕ };

    ghost longs: { Self → Place → ℕ };

    /// The bytes of the file, of which there may be at most `most`.
    ///
    /// If the contents are shown and memory suffices, the answer is `TooLong` exactly if the file has
    /// more than `most` bytes, unless the load failed: this is `short`, `bytes` and `over` together.
    fn load(
        &mut self,
        alloc: Global,
        place: Place,
        name: &str,
        most: usize,
    ) -> Result<Vec<u8>, LoadFault>
        requires { granted self.old place name.now most }
        ensures short { IfOk result (λ file. vec_len file ≤ most) }
        ensures bytes { IfOk result
            (λ file. IfSome (held self.old) (λ bytes_of. file.items ≡ bytes_of name.now)) }
        ensures failed { result ≡ Err LoadFault.Failed →
            Rose (faults self.old place) (faults self.new place) }
        ensures too_long { result ≡ Err LoadFault.TooLong →
            Rose (longs self.old place) (longs self.new place) }
        ensures over { result ≡ Err LoadFault.TooLong →
            IfSome (held self.old) (λ bytes_of. most < length (bytes_of name.now)) }
        ensures no_fault { result ≢ Err LoadFault.Failed →
            faults self.new place ≡ faults self.old place }
        ensures none_long { result ≢ Err LoadFault.TooLong →
            longs self.new place ≡ longs self.old place }
        ensures same_files { held self.new ≡ held self.old }
        ensures faults_never_fall { faults self.old place ≤ faults self.new place }
        ensures longs_never_fall { longs self.old place ≤ longs self.new place }
        ensures other_faults { faults self.new (other_place place)
            ≡ faults self.old (other_place place) }
        ensures other_longs { longs self.new (other_place place)
            ≡ longs self.old (other_place place) }
        ensures other_granted { (other_name : List ℕ) (other_most : ℕ) →
            granted self.new (other_place place) other_name other_most
            ↔ granted self.old (other_place place) other_name other_most };

    /// Gives the bytes of the file, of which there may be at most `most`, to a receiver, part by part. So a large file is read
    /// without being held. For the rest it is a load as [`load`](Files::load) is. After a refusal the receiver may have
    /// received some parts.
    fn load_into<T: Receive>(
        &mut self,
        alloc: Global,
        place: Place,
        name: &str,
        most: usize,
        receiver: &mut T,
    ) -> Result<(), LoadFault>
        requires { granted self.old place name.now most }
        ensures fixed { T.fixed receiver.new ≡ T.fixed receiver.old }
        ensures short { OnOk result
            (length (T.received receiver.new) ≤ length (T.received receiver.old) + most) }
        ensures bytes { OnOk result
            (IfSome (held self.old)
            (λ bytes_of. T.received receiver.new ≡ T.received receiver.old ++ bytes_of name.now)) }
        ensures failed { result ≡ Err LoadFault.Failed →
            Rose (faults self.old place) (faults self.new place) }
        ensures too_long { result ≡ Err LoadFault.TooLong →
            Rose (longs self.old place) (longs self.new place) }
        ensures over { result ≡ Err LoadFault.TooLong →
            IfSome (held self.old) (λ bytes_of. most < length (bytes_of name.now)) }
        ensures no_fault { result ≢ Err LoadFault.Failed →
            faults self.new place ≡ faults self.old place }
        ensures none_long { result ≢ Err LoadFault.TooLong →
            longs self.new place ≡ longs self.old place }
        ensures same_files { held self.new ≡ held self.old }
        ensures faults_never_fall { faults self.old place ≤ faults self.new place }
        ensures longs_never_fall { longs self.old place ≤ longs self.new place }
        ensures other_faults { faults self.new (other_place place)
            ≡ faults self.old (other_place place) }
        ensures other_longs { longs self.new (other_place place)
            ≡ longs self.old (other_place place) }
        ensures other_granted { (other_name : List ℕ) (other_most : ℕ) →
            granted self.new (other_place place) other_name other_most
            ↔ granted self.old (other_place place) other_name other_most }
    {
        let file = self.load(alloc, place, name, most)?;
        match receiver.receive(file.as_slice()) {
            Ok(()) => Ok(()),
            Err(_) => Err(LoadFault::Memory),
        }
    }
}
