//! Classes of variables.
ghost use Rattle.std.specs.Prelude.{◌≡◌};
ghost use Rattle.hz_desk.specs.Class.{OneClass};
ghost use Rattle.hz_desk.specs.ClassTable.{class_by_changes, class_in_table};

use hz_core::Tri;
use hz_word::Count;

/// What a change may do to a variable while nobody knows the delays of gates and wires, in the words of hazard analysis: a
/// static hazard is a variable that may change though its value before and after the change is the same, a dynamic hazard
/// one that may change more than once on its way to another value.
#[derive(Clone, Copy, Debug, PartialEq, Eq)]
pub enum Class {
    /// It never changes.
    Steady,
    /// It goes to its new value with just one change.
    Single,
    /// It may change on its way, and comes back to its value at the start.
    Static,
    /// It goes to its new value, and a count of its changes does not exclude that it changes more than once.
    MaybeDynamic,
    /// It goes to its new value, and nothing is known of how often it changes, since it depends on feedback.
    Change,
    /// It may keep changing or end at either value.
    Unsettled,
}

/// A variable has one class: it is determined by the value at the start, the values in Algorithms A and B, and the number of
/// changes.
#[tactic(auto, using(crate::proofs::ClassTable::one_class))]
pub fn one_class()
    ensures { OneClass }
{}

// The class of a variable by its value at the start, its values in Algorithms A and B and the changes of its word.
pub(crate) fn class_of(start: bool, a: Tri, b: Tri, changes: Option<Count>) -> Class
    ensures { result ≡ class_in_table start a b changes }
{
    match (a, b.bit()) {
        (Tri::Zero, _) => Class::Steady,
        (Tri::One, _) => Class::Steady,
        (Tri::Unknown, None) => Class::Unsettled,
        (Tri::Unknown, Some(last)) => {
            if last == start {
                Class::Static
            } else {
                class_of_change(changes)
            }
        }
    }
}

// The class of a variable that goes to another value.
fn class_of_change(changes: Option<Count>) -> Class
    ensures { result ≡ class_by_changes changes }
{
    match changes {
        None => Class::Change,
        Some(Count::Exact(1)) => Class::Single,
        Some(_) => Class::MaybeDynamic,
    }
}
