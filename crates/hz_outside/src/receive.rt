//! What takes the bytes of a file.
ghost use Rattle.std.specs.Prelude.{◌≡◌, ℕ, List, ◌++◌, OnOk};

use super::fault::Memory;

/// The first lines of a text: how many they are, and how many bytes they have.
#[derive(Clone, Copy, Debug)]
pub struct FirstLines {
    pub lines: usize,
    pub bytes: usize,
}

/// What takes the bytes of a file part by part, as [`Files::load_into`](super::Files::load_into) gives them.
///
/// `received` is what it has taken so far, and `fixed` what no part changes of it.
pub trait Receive {
    ghost received: { Self → List ℕ };

    ghost Fixed: { Type 0 };

    ghost fixed: { Self → Fixed };

    /// Hears how many bytes are likely to come, and may take room for them. By default it takes none.
    fn expect(&mut self, _bytes: usize) -> Result<(), Memory>
        ensures received { OnOk result (received self.new ≡ received self.old) }
        ensures fixed { fixed self.new ≡ fixed self.old }
    {
        Ok(())
    }

    /// Takes the bytes that follow those taken so far. After a refusal nothing is said of what was received.
    fn receive(&mut self, part: &[u8]) -> Result<(), Memory>
        ensures received { OnOk result (received self.new ≡ received self.old ++ part.now) }
        ensures fixed { fixed self.new ≡ fixed self.old };

    /// Whole lines at the front of what it has taken that it has read already. Who wants to see a line behind them may look for it from
    /// there. By default they are none.
    fn first_lines(&self) -> FirstLines {
        FirstLines { lines: 0, bytes: 0 }
    }
}
