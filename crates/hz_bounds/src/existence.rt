//! The law that every change can be told words.
ghost use Rattle.hz_bounds.specs.Existence.{WordsAreTold};

use hz_free::words_exist;

/// There are words that are inductive, for every change: the feedback-free variables' own ones, no change for what Algorithm A keeps, and
/// many changes for the others.
#[tactic(auto, using(crate::proofs::WordsTold::words_are_told))]
pub fn words_are_told()
    ensures { WordsAreTold }
{
    words_exist();
}
