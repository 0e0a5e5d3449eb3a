//! How often variables may change, behind feedback too: bounds from above, and what they come to with a run that shows changes from below.
//!
//! | Module | What lives in it |
//! |---|---|
//! | `telling` | [`tell`]: words of all variables, each of which covers every run |
//! | `driven` | the word that its driver gives a variable, and whether what it is told is enough |
//! | `component` | the order in which words are raised |
//! | `existence` | the law that every change can be told words |
//! | `range` | [`range_of`] and [`edge_class`]: both bounds of a variable, and their class |
#![tactic(auto)]

ghost use Rattle.std.specs.Prelude.{◌≡◌, ℕ, ◌≤◌, Bool, List, [], length, IsTrue, slice_index_or};
ghost use Rattle.hz_core.specs.declared.kind.Kind.{Kind};
ghost use Rattle.hz_core.specs.declared.tri.Tri.{Tri};
ghost use Rattle.hz_core.specs.Gate.{takes};
ghost use Rattle.hz_core.specs.Netlist.{Netlist, IsCircuit, IsWhole};
ghost use Rattle.hz_net.specs.Network.{network_of, IsVariable};
ghost use Rattle.hz_net.specs.Reads.{IsNode};
ghost use Rattle.hz_net.specs.Starts.{IsStableStart};
ghost use Rattle.hz_gmw.specs.Runs.{IsRun};
ghost use Rattle.hz_word.specs.declared.word.Word.{Word};
ghost use Rattle.hz_word.specs.Word.{change_count};
ghost use Rattle.hz_word.specs.declared.count.Count.TheVariants.{Exact};
ghost use Rattle.hz_word.specs.Capped.{IsAtMost, IsFold};
ghost use Rattle.hz_free.specs.Chains.{IsFeedbackFree};
ghost use Rattle.hz_free.specs.Inductive.{IsInductive, told_at};
ghost use Rattle.hz_free.specs.VariableWords.{AreVariableWords, variable_history};
ghost use Rattle.hz_witness.specs.Witness.{IsWitness};
ghost use Rattle.hz_bounds.specs.OneWay.{AreAtMostOnce, IsOneWay, IsTwoWay, first_letters, last_letters};
ghost use Rattle.hz_bounds.specs.Ranges.{IsMostChanges};

mod component;
mod driven;
mod existence;
mod range;
mod telling;

pub use existence::words_are_told;
pub use range::{EdgeClass, Range, edge_class, range_of};
pub use telling::tell;

/// Where what a variable is told is a number that the witness shows, it is the greatest number of its changes: no run changes it more
/// often, and one does so often.
pub fn met_bounds_are_exact()
    ensures { (netlist : Netlist) (input start : List Bool) (a b : List Tri) (cap : ℕ)
        (told : List Word) (steps : List (List ℕ)) (counts : List ℕ) (i most : ℕ) →
        IsCircuit netlist → IsWhole netlist → IsStableStart netlist start →
        IsInductive (network_of netlist) input start cap told →
        IsWitness (network_of netlist) input start a b steps counts → IsVariable netlist i →
        (told_at told i).changes ≡ Exact most → most ≤ slice_index_or counts i 0 →
        IsMostChanges (network_of netlist) input start i most }
{}

/// A gate that is pushed one way by pins that change at most once changes at most once.
pub fn one_way_folds_once()
    ensures { (kind : Kind) (pins : List Word) (cap : ℕ) (outcome : Word) → 1 ≤ cap →
        AreAtMostOnce pins → IsOneWay kind (first_letters pins) (last_letters pins) →
        IsFold kind pins cap outcome → IsAtMost outcome.changes (Exact 1) }
{}

/// A gate that is pushed two ways by pins that change at most once has a fold of two changes or more.
pub fn two_ways_fold_twice()
    ensures { (kind : Kind) (pins : List Word) (cap : ℕ) (outcome : Word) → 1 ≤ cap →
        IsTrue (takes kind (length pins)) → AreAtMostOnce pins →
        IsTwoWay kind (first_letters pins) (last_letters pins) → IsFold kind pins cap outcome →
        IsAtMost (Exact 2) outcome.changes }
{}

/// The word of a feedback-free node with two changes or more is shown: in some run the node changes twice or more. So a feedback-free node
/// changes at most once in every run exactly if its word does.
pub fn free_words_are_shown()
    ensures { (netlist : Netlist) (input start : List Bool) (words : List (List Bool)) (i : ℕ) →
        IsCircuit netlist → IsWhole netlist → IsStableStart netlist start →
        AreVariableWords (network_of netlist) input start words → IsVariable netlist i →
        IsNode (network_of netlist) i → IsFeedbackFree (network_of netlist) i →
        2 ≤ change_count (slice_index_or words i []) →
        (steps : List (List ℕ)) × IsRun (network_of netlist) input start steps
        × (2 ≤ change_count (variable_history start steps i)) }
{}
