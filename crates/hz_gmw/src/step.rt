//! What a step does to a state.
ghost use Rattle.std.specs.Prelude.{◌≡◌, ℕ, ◌<◌, length, IsTrue};
ghost use Rattle.hz_lists.specs.Listed.{is_listed, IsRepeatFree};
ghost use Rattle.hz_gmw.specs.Runs.{state_after};

/// Turns each of the listed variables.
pub fn make_step(state: &mut [bool], flips: &[u32])
    requires once { IsRepeatFree flips.now }
    requires inside { (i : ℕ) → IsTrue (is_listed flips.now i) → i < length state.old }
    ensures { state.new ≡ state_after flips.now state.old }
{
    for var in flips {
        state[*var as usize] = !state[*var as usize];
    }
}
