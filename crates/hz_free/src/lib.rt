//! The feedback-free part of a network, the words of its variables, and the feedback cycles of the others.
//!
//! | Module | What stands there |
//! |---|---|
//! | `free` | `Free`, which is made for a network once, and gives its words for each change |
//! | `order` | the feedback-free variables in a topological order |
//! | `packed` | `PackedWord`, a word or none in four bytes |
//! | `words` | the words of an input and of a gate |
//! | `feedback` | the feedback cycles, and the core of each variable that is not feedback-free |
//! | `cycles` | a list of cycles |
//! | `link` | `Link`, a number or none in four bytes |
#![tactic(auto)]

ghost use Rattle.std.specs.Prelude.{◌≡◌, ◌↔◌, ℕ, ◌≤◌, Bool, List, [], slice_index_or};
ghost use Rattle.hz_core.specs.declared.tri.Tri.{Tri};
ghost use Rattle.hz_core.specs.declared.tri.Tri.TheVariants.{Unknown};
ghost use Rattle.hz_core.specs.Ternary.{tri_of};
ghost use Rattle.hz_core.specs.Netlist.{Netlist, IsCircuit, IsWhole};
ghost use Rattle.hz_net.specs.Network.{Driver, network_of, bit_at, value_at, IsState, IsVariable};
ghost use Rattle.hz_net.specs.Passes.{algorithm_a, algorithm_b, IsResult};
ghost use Rattle.hz_net.specs.Starts.{IsStableStart};
ghost use Rattle.hz_gmw.specs.Runs.{IsRun};
ghost use Rattle.hz_word.specs.declared.word.Word.{Word};
ghost use Rattle.hz_word.specs.Word.{first_letter, last_letter, change_count};
ghost use Rattle.hz_word.specs.Capped.{capped_word};
ghost use Rattle.hz_word.specs.Covers.{Covers};
ghost use Rattle.hz_free.specs.Chains.{IsFeedbackFree};
ghost use Rattle.hz_free.specs.Feedback.{AreFeedbackCycles, IsCore};
ghost use Rattle.hz_free.specs.FreePart.{MarksExist};
ghost use Rattle.hz_free.specs.Inductive.{IsInductive, told_at};
ghost use Rattle.hz_free.specs.VariableWords.{AreVariableWords, WordsExist, variable_history};

mod cycles;
mod feedback;
mod free;
mod link;
mod order;
mod packed;
mod words;

pub use free::Free;
pub use packed::PackedWord;

/// Along every run from a stable start under the new input, a word of inductive words covers the history of its variable, whatever
/// reads what.
pub fn inductive_covers()
    ensures { (netlist : Netlist) (input start : List Bool) (cap : ℕ) (told : List Word) (i : ℕ)
        (steps : List (List ℕ)) → IsCircuit netlist → IsWhole netlist →
        IsStableStart netlist start → IsInductive (network_of netlist) input start cap told →
        IsVariable netlist i → IsRun (network_of netlist) input start steps →
        Covers (told_at told i) (variable_history start steps i) }
{}

/// Along every run from a stable start under the new input, the word of a feedback-free variable covers its history.
pub fn words_cover()
    ensures { (netlist : Netlist) (input start : List Bool) (words : List (List Bool)) (cap i : ℕ)
        (steps : List (List ℕ)) → IsCircuit netlist → IsWhole netlist →
        IsStableStart netlist start → AreVariableWords (network_of netlist) input start words →
        IsVariable netlist i → IsFeedbackFree (network_of netlist) i →
        IsRun (network_of netlist) input start steps →
        Covers (capped_word cap (slice_index_or words i [])) (variable_history start steps i) }
{}

/// The word of a feedback-free variable begins with its value at the start.
pub fn words_begin()
    ensures { (netlist : Netlist) (input start : List Bool) (words : List (List Bool)) (i : ℕ) →
        IsCircuit netlist → IsWhole netlist → IsStableStart netlist start →
        AreVariableWords (network_of netlist) input start words → IsVariable netlist i →
        IsFeedbackFree (network_of netlist) i →
        first_letter (slice_index_or words i []) ≡ bit_at start i }
{}

/// The word of a feedback-free variable has a change exactly if Algorithm A makes the variable X.
pub fn words_change()
    ensures { (netlist : Netlist) (input start : List Bool) (words : List (List Bool))
        (result : List Tri) (i : ℕ) → IsCircuit netlist → IsWhole netlist →
        IsStableStart netlist start → AreVariableWords (network_of netlist) input start words →
        IsResult (algorithm_a (network_of netlist) input start) result → IsVariable netlist i →
        IsFeedbackFree (network_of netlist) i →
        (1 ≤ change_count (slice_index_or words i [])) ↔ (value_at result i ≡ Unknown) }
{}

/// The word of a feedback-free variable ends with the value that Algorithm B gives it, which is never X.
pub fn words_end()
    ensures { (netlist : Netlist) (input start : List Bool) (words : List (List Bool))
        (first result : List Tri) (i : ℕ) → IsCircuit netlist →
        AreVariableWords (network_of netlist) input start words → IsState netlist first →
        IsResult (algorithm_b (network_of netlist) input first) result → IsVariable netlist i →
        IsFeedbackFree (network_of netlist) i →
        value_at result i ≡ tri_of (last_letter (slice_index_or words i [])) }
{}

/// A network has a list of feedback cycles.
pub fn feedback_exists()
    ensures { (netlist : Netlist) → IsCircuit netlist →
        (cycles : List (List ℕ)) × AreFeedbackCycles (network_of netlist) cycles }
{}

/// A network has one list of feedback cycles at most, and a variable one core at most.
pub fn feedback_is_one()
    ensures cycles { (net : List Driver) (left right : List (List ℕ)) → AreFeedbackCycles net left →
        AreFeedbackCycles net right → left ≡ right }
    ensures core { (net : List Driver) (i : ℕ) (left right : List ℕ) → IsCore net i left →
        IsCore net i right → left ≡ right }
{}

/// It is decided which variables of a circuit's network are feedback-free.
pub fn marks_exist()
    ensures { MarksExist }
{}

/// From every start, under every new input and every cap, the feedback-free variables of a circuit have capped words.
pub fn words_exist()
    ensures { WordsExist }
{}
