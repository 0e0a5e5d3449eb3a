//! How often a run changes each variable.
ghost use Rattle.std.specs.Prelude.{◌≡◌, ◌<◌, ◌+◌, ℕ, [], ◌∷◌, length, slice_index_or, OnOk, All};
ghost use Rattle.hz_lists.specs.Listed.{IsRepeatFree};
ghost use Rattle.hz_reach.specs.Spread.{changes_in};

use hz_core::Memory;
use hz_gmw::Run;

/// Counts how often a run changes each variable.
pub(crate) fn count_changes(run: &Run, counts: &mut [u32]) -> Result<(), Memory>
    requires once { All IsRepeatFree run.now.steps }
    requires inside { All (All (λ var. var < length counts.old)) run.now.steps }
    ensures { OnOk result ((i : ℕ) → i < length counts.old →
        slice_index_or counts.new i 0 ≡ changes_in run.now.steps i) }
{
    counts.fill(0);
    for number in 0..run.steps() {
        count_step(run.step(number), counts)?;
    }
    Ok(())
}

// Counts one more change of each variable of a step.
fn count_step(flips: &[u32], counts: &mut [u32]) -> Result<(), Memory>
    requires once { IsRepeatFree flips.now }
    requires inside { All (λ var. var < length counts.old) flips.now }
    ensures { OnOk result ((i : ℕ) → i < length counts.old →
        slice_index_or counts.new i 0
        ≡ slice_index_or counts.old i 0 + changes_in (flips.now ∷ []) i) }
{
    for var in flips {
        let place = *var as usize;
        let Some(more) = counts[place].checked_add(1) else {
            return Err(Memory);
        };
        counts[place] = more;
    }
    Ok(())
}
