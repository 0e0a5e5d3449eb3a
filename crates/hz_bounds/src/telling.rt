//! Words of all variables that are inductive: told by iteration, and checked at the end.
ghost use Rattle.std.specs.Prelude.{◌≡◌, ◌≤◌, OnOk, length};
ghost use Rattle.hz_net.specs.Network.{network_of, AreByVariable, IsInput, IsVariable};
ghost use Rattle.hz_net.specs.Passes.{algorithm_a, IsResult};
ghost use Rattle.hz_net.specs.Starts.{IsStableStart};
ghost use Rattle.hz_word.specs.Capped.{greatest_cap};
ghost use Rattle.hz_free.specs.FreePart.{IsFreePart};
ghost use Rattle.hz_free.specs.Inductive.{AreFreeWords, IsInductive};
ghost use Rattle.hz_bounds.specs.Telling.{AllHave, AreStill, AreToldSoFar, CanBeTold, known_at};

use crate::component::{by_component, raise_in_order};
use crate::driven::{are_inductive, given, is_at_most};
use hz_core::{Memory, Tri};
use hz_free::{Free, PackedWord};
use hz_net::Net;
use hz_word::{Count, Word};
use std::alloc::Global;

/// What words are told from: a start of a network, a new input, the result of Algorithm A, a cap, and the words of the feedback-free
/// variables.
#[derive(Clone, Copy)]
pub(crate) struct Telling<'a> {
    pub(crate) net: &'a Net,
    pub(crate) start: &'a [bool],
    pub(crate) input: &'a [bool],
    pub(crate) a: &'a [Tri],
    pub(crate) cap: u64,
    pub(crate) words: &'a [PackedWord],
}

/// How often a number is raised before it becomes Many.
const MOST_RISES: u8 = 3;

/// Tells each variable how often it changes at most, whatever reads what: the words are inductive, so each covers every run. The
/// feedback-free variables are told their own words, and what Algorithm A keeps no change.
///
/// The words of the others grow from no change on, component by component, until each is enough. One that has grown three times and
/// is not enough is told many changes.
pub fn tell(
    alloc: Global,
    net: &Net,
    free: &Free,
    start: &[bool],
    input: &[bool],
    a: &[Tri],
    cap: u64,
    told: &mut [Word],
) -> Result<(), Memory>
    requires part { IsFreePart net.now free.now }
    requires start { IsStableStart net.now start.now }
    requires input { IsInput net.now input.now }
    requires a { IsResult (algorithm_a (network_of net.now) input.now start.now) a.now }
    requires cap_low { 1 ≤ cap }
    requires cap_high { cap ≤ greatest_cap }
    requires told { AreByVariable net.now told.old }
    ensures inductive { OnOk result
        (IsInductive (network_of net.now) input.now start.now cap told.new) }
    ensures free { OnOk result
        (AreFreeWords (network_of net.now) input.now start.now cap told.new) }
    ensures still { OnOk result (AreStill (network_of net.now) start.now a.now told.new) }
{
    let mut words = vec![in alloc; PackedWord::none(); net.len() as usize]?;
    free.words_given_a(net, start, input, cap, a, words.as_mut_slice());
    let telling = Telling {
        net,
        start,
        input,
        a,
        cap,
        words: words.as_slice(),
    };
    tell_all(alloc, &telling, told)
}

// The same, given the words of the feedback-free variables.
fn tell_all(alloc: Global, telling: &Telling, told: &mut [Word]) -> Result<(), Memory>
    requires telling { CanBeTold telling.now }
    requires told { length told.old ≡ length (network_of telling.now.net.now) }
    ensures inductive { OnOk result
        (IsInductive (network_of telling.now.net.now) telling.now.input.now telling.now.start.now
        telling.now.cap told.new) }
    ensures free { OnOk result
        (AreFreeWords (network_of telling.now.net.now) telling.now.input.now telling.now.start.now
        telling.now.cap told.new) }
    ensures still { OnOk result
        (AreStill (network_of telling.now.net.now) telling.now.start.now telling.now.a.now
        told.new) }
{
    begin(telling, told);
    let order = by_component(alloc, telling)?;
    raise_in_order(alloc, telling, &order, told)?;
    make_inductive(telling, told);
    Ok(())
}

// Gives each variable the word that is known, or one with its value at the start and so many changes.
fn fill(telling: &Telling, changes: Count, told: &mut [Word])
    requires telling { CanBeTold telling.now }
    requires told { length told.old ≡ length (network_of telling.now.net.now) }
    ensures { AllHave telling.now changes told.new }
{
    for var in 0..telling.net.len() {
        let other = Word {
            first: telling.start[var as usize],
            changes,
        };
        told[var as usize] = known(telling, var).unwrap_or(other);
    }
}

/// The word that is known of a variable: its own if it is feedback-free, else one without a change if Algorithm A keeps its value.
pub(crate) fn known(telling: &Telling, var: u32) -> Option<Word>
    requires telling { CanBeTold telling.now }
    requires var { IsVariable telling.now.net.now var }
    ensures { result ≡ known_at telling.now var }
{
    let place = var as usize;
    match (telling.words[place].get(), telling.a[place]) {
        (Some(word), _) => Some(word),
        (None, Tri::Unknown) => None,
        (None, Tri::Zero | Tri::One) => Some(Word {
            first: telling.start[place],
            changes: Count::Exact(0),
        }),
    }
}

// Tells each variable that it does not change, but for those whose words are known.
fn begin(telling: &Telling, told: &mut [Word])
    requires telling { CanBeTold telling.now }
    requires told { length told.old ≡ length (network_of telling.now.net.now) }
    ensures { AreToldSoFar telling.now told.new }
{
    fill(telling, Count::Exact(0), told);
}

// Tells every variable Many whose word is not known, if some variable is not told enough.
fn make_inductive(telling: &Telling, told: &mut [Word])
    requires telling { CanBeTold telling.now }
    requires told { AreToldSoFar telling.now told.old }
    ensures inductive { IsInductive (network_of telling.now.net.now) telling.now.input.now
        telling.now.start.now telling.now.cap told.new }
    ensures free { AreFreeWords (network_of telling.now.net.now) telling.now.input.now
        telling.now.start.now telling.now.cap told.new }
    ensures still { AreStill (network_of telling.now.net.now) telling.now.start.now
        telling.now.a.now told.new }
{
    if !are_inductive(telling, told) {
        fill(telling, Count::Many, told);
    }
}

/// Raises the word of a variable if it is not told enough, and says whether it did. Those that are known stay.
pub(crate) fn raise(telling: &Telling, rises: &mut [u8], told: &mut [Word], var: u32) -> bool
    requires telling { CanBeTold telling.now }
    requires told { AreToldSoFar telling.now told.old }
    requires rises { length rises.old ≡ length told.old }
    requires var { IsVariable telling.now.net.now var }
    ensures { AreToldSoFar telling.now told.new }
{
    if known(telling, var).is_some() {
        return false;
    }
    let word = given(telling, told, var);
    let so_far = told[var as usize].changes;
    if is_at_most(word.changes, so_far) {
        return false;
    }
    let often = rises[var as usize] >= MOST_RISES;
    let changes = if often { Count::Many } else { word.changes };
    rises[var as usize] = rises[var as usize].saturating_add(1);
    told[var as usize] = Word {
        first: telling.start[var as usize],
        changes,
    };
    true
}
