//! What takes bytes, and tells how many.
ghost use Rattle.std.specs.Prelude.{◌≡◌, ℕ, ◌≤◌, List, length, take, Option, IfSome};
ghost use Rattle.hz_outside.specs.WrittenText.{extended_text};

/// What takes bytes, and tells how many.
///
/// `written` is what was written so far, if that is shown.
pub trait WriteSome {
    ghost written: { Self → Option (List ℕ) };

    /// Writes some of the bytes, from the first one on, and says how many. Or it fails, and has written none.
    fn write_some(&mut self, bytes: &[u8]) -> Option<usize>
        ensures fits { IfSome result (λ count. count ≤ length bytes.now) }
        ensures some { IfSome result (λ count.
            written self.new ≡ extended_text (written self.old) (take count bytes.now)) }
        ensures none { result ≡ None → written self.new ≡ written self.old };
}
