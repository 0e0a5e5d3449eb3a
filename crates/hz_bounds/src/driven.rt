//! The word that its driver gives a variable by the words that are told, and whether what it is told is enough.
ghost use Rattle.std.specs.Prelude.{◌≡◌, ◌≤◌, IsTrue};
ghost use Rattle.hz_net.specs.Network.{network_of, driver_at, IsVariable};
ghost use Rattle.hz_word.specs.Capped.{IsAtMost, IsWithinCap, capped_word};
ghost use Rattle.hz_free.specs.Inductive.{GivesWord, IsInductive};
ghost use Rattle.hz_free.specs.VariableWords.{input_word};
ghost use Rattle.hz_bounds.specs.Telling.{AreToldSoFar, CanBeTold, IsEnough};

use crate::telling::Telling;
use hz_net::VarKind;
use hz_word::{Count, Word, fold};

/// Whether a number of changes is at most another.
pub(crate) fn is_at_most(less: Count, more: Count) -> bool
    ensures { IsTrue result → IsAtMost less more }
{
    match (less, more) {
        (Count::Exact(less), Count::Exact(more)) => less <= more,
        (Count::Many, Count::Exact(_)) => false,
        (Count::Exact(_), Count::Many) => true,
        (Count::Many, Count::Many) => true,
    }
}

/// The word that its driver gives a variable by the words that are told.
pub(crate) fn given(telling: &Telling, told: &[Word], var: u32) -> Word
    requires telling { CanBeTold telling.now }
    requires told { AreToldSoFar telling.now told.now }
    requires var { IsVariable telling.now.net.now var }
    ensures gives { GivesWord telling.now.input.now telling.now.start.now telling.now.cap told.now
        var (driver_at (network_of telling.now.net.now) var) result }
    ensures counted { IsWithinCap telling.now.cap result.changes }
{
    match telling.net.kind_of(var) {
        VarKind::Input { number } => input_word(
            telling.start[var as usize],
            telling.input[number as usize],
            telling.cap,
        ),
        VarKind::Gate { kind } => {
            let (first, count) = telling.net.wires_in(var);
            fold(
                kind,
                &told[first as usize..(first + count) as usize],
                telling.cap,
            )
        }
        VarKind::Wire { source, .. } => told[source as usize],
    }
}

// The word of an input: its value at the start, and one change if the new input differs.
fn input_word(old: bool, new: bool, cap: u64) -> Word
    requires { 1 ≤ cap }
    ensures value { capped_word cap (input_word old new) ≡ result }
    ensures counted { IsWithinCap cap result.changes }
{
    Word {
        first: old,
        changes: Count::Exact(u64::from(old != new)),
    }
}

// Whether a variable is told enough.
fn is_enough(telling: &Telling, told: &[Word], var: u32) -> bool
    requires telling { CanBeTold telling.now }
    requires told { AreToldSoFar telling.now told.now }
    requires var { IsVariable telling.now.net.now var }
    ensures { IsTrue result → IsEnough telling.now told.now var }
{
    let word = given(telling, told, var);
    let so_far = told[var as usize];
    so_far.first == telling.start[var as usize] && is_at_most(word.changes, so_far.changes)
}

/// Whether every variable is told enough.
pub(crate) fn are_inductive(telling: &Telling, told: &[Word]) -> bool
    requires telling { CanBeTold telling.now }
    requires told { AreToldSoFar telling.now told.now }
    ensures { IsTrue result → IsInductive (network_of telling.now.net.now) telling.now.input.now
        telling.now.start.now telling.now.cap told.now }
{
    for var in 0..telling.net.len() {
        if !is_enough(telling, told, var) {
            return false;
        }
    }
    true
}
