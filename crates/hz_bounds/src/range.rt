//! Both bounds of a variable's changes, and what they come to.
ghost use Rattle.std.specs.Prelude.{◌≡◌};
ghost use Rattle.hz_bounds.specs.Ranges.{edge_class_of, is_bounded, range_from, settled_class_of};

use hz_core::Tri;
use hz_word::Count;

/// How often a variable changes: so often along the witness, and at most so often along every run, if a bound is known.
#[derive(Clone, Copy, Debug, PartialEq, Eq)]
pub struct Range {
    /// How often it changes along the witness.
    pub least: u32,
    /// How often it changes at most along any run.
    pub most: Option<u64>,
}

/// What the changes of a variable come to.
#[derive(Clone, Copy, Debug, PartialEq, Eq)]
pub enum EdgeClass {
    /// It never changes.
    Steady,
    /// It ends at another value, and never changes more than once.
    Single,
    /// It ends as it began, and changes twice or more in some run.
    Static,
    /// It ends as it began, and may change in between.
    MaybeStatic,
    /// It ends at another value, and changes three times or more in some run.
    Dynamic,
    /// It ends at another value, and may change more than once.
    MaybeDynamic,
    /// It may not settle.
    Unsettled,
}

/// The range of a variable, by the changes that it is told and those along the witness.
pub fn range_of(changes: Count, count: u32) -> Range
    ensures { result ≡ range_from changes count }
{
    let most = match changes {
        Count::Exact(most) => Some(most),
        Count::Many => None,
    };
    Range { least: count, most }
}

/// The class of a variable, by its value at the start, the value that Algorithm B gives it, and its range.
pub fn edge_class(start: bool, end: Tri, range: Range) -> EdgeClass
    ensures { result ≡ edge_class_of start end range }
{
    if is_at_most(range, 0) {
        return EdgeClass::Steady;
    }
    match end {
        Tri::Unknown => EdgeClass::Unsettled,
        Tri::Zero => settled_class(!start, range),
        Tri::One => settled_class(start, range),
    }
}

// Whether a variable never changes more often than so.
fn is_at_most(range: Range, changes: u64) -> bool
    ensures { result ≡ is_bounded range.most changes }
{
    match range.most {
        Some(most) => most <= changes,
        None => false,
    }
}

// The class of a variable that changes and settles, by whether it ends as it began.
fn settled_class(returns: bool, range: Range) -> EdgeClass
    ensures { result ≡ settled_class_of returns range }
{
    if returns {
        if range.least >= 2 {
            EdgeClass::Static
        } else {
            EdgeClass::MaybeStatic
        }
    } else if is_at_most(range, 1) {
        EdgeClass::Single
    } else if range.least >= 3 {
        EdgeClass::Dynamic
    } else {
        EdgeClass::MaybeDynamic
    }
}
