//! The algebra of transients: how often the output of a gate may change while its pins change.
#![tactic(auto)]

ghost use Rattle.std.specs.Prelude.{◌≡◌, ◌≤◌, Bool, List, ◌++◌, length, IsTrue};
ghost use Rattle.hz_core.specs.declared.kind.Kind.{Kind};
ghost use Rattle.hz_core.specs.Gate.{takes, gate_value};
ghost use Rattle.hz_word.specs.Word.{AreWords, change_count};
ghost use Rattle.hz_word.specs.Walk.{IsPartOfWalk, IsWalk, walk_changes, IsWordOf};

mod count;
mod folding;
mod word;

pub use count::Count;
pub use folding::fold;
pub use word::Word;

/// A kind of gate has one word over the words of its pins.
#[tactic(auto, using(crate::proofs::Laws::one_word))]
pub fn word_is_unique()
    ensures { (kind : Kind) (words : List (List Bool)) (word other : List Bool) →
        IsTrue (takes kind (length words)) → AreWords words → IsWordOf kind words word →
        IsWordOf kind words other → word ≡ other }
{}

/// Along a part of a walk a gate changes at most as often as its word, even if the walk is not finished.
#[tactic(auto, using(crate::proofs::Laws::part_changes))]
pub fn word_bounds_parts()
    ensures { (kind : Kind) (words : List (List Bool)) (word : List Bool)
        (moves : List (List Bool)) → IsTrue (takes kind (length words)) → AreWords words →
        IsWordOf kind words word → IsPartOfWalk words moves →
        walk_changes (gate_value kind) words moves ≤ change_count word }
{}

/// A part of a walk can be completed.
#[tactic(auto, using(crate::proofs::Laws::completed_part))]
pub fn parts_complete()
    ensures { (words : List (List Bool)) (moves : List (List Bool)) → AreWords words →
        IsPartOfWalk words moves →
        (rest : List (List Bool)) × IsWalk words (moves ++ rest) }
{}
