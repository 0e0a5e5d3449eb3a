//! How many nodes are of each class in a change, and how many changes are of each kind.
ghost use Rattle.std.specs.Prelude.{◌≡◌, ◌<◌, ◌≤◌, Bool, List, [], ◌∷◌, ◌++◌, length, map};
ghost use Rattle.std.specs.List.{range_with_len};
ghost use Rattle.hz_core.specs.Limits.{most_variables};
ghost use Rattle.hz_bounds.specs.declared.range.EdgeClass.{EdgeClass};
ghost use Rattle.hz_edge_reports.specs.Room.{change_of};
ghost use Rattle.hz_explore.specs.Inside.{changes_in, most_changes};
ghost use Rattle.hz_explore.specs.Progress.{counted, no_totals};
ghost use Rattle.hz_explore.specs.Counts.{NotSettled, classes_of, count_if};
ghost use Rattle.hz_explore.specs.Transitions.{class_at};

use hz_bounds::{EdgeClass, edge_class};
use hz_edge_reports::ChangeRoom;

/// How many nodes are of each class, and whether each is steady or single.
#[derive(Clone, Copy)]
pub struct Classes {
    pub single: u32,
    pub statics: u32,
    pub maybe_static: u32,
    pub dynamic: u32,
    pub maybe_dynamic: u32,
    pub is_clean: bool,
}

impl Classes {
    // Those of no node.
    fn new() -> Classes
        ensures { result ≡ classes_of [] }
    {
        Classes {
            single: 0,
            statics: 0,
            maybe_static: 0,
            dynamic: 0,
            maybe_dynamic: 0,
            is_clean: true,
        }
    }

    // Counts one node more.
    fn count(&mut self, class: EdgeClass)
        requires single { self.old.single < most_variables }
        requires statics { self.old.statics < most_variables }
        requires maybe_static { self.old.maybe_static < most_variables }
        requires dynamic { self.old.dynamic < most_variables }
        requires maybe_dynamic { self.old.maybe_dynamic < most_variables }
        ensures { (classes : List EdgeClass) → self.old ≡ classes_of classes →
            self.new ≡ classes_of (classes ++ class ∷ []) }
    {
        match class {
            EdgeClass::Steady => {}
            EdgeClass::Single => self.single += 1,
            EdgeClass::Static => {
                self.statics += 1;
                self.is_clean = false;
            }
            EdgeClass::MaybeStatic => {
                self.maybe_static += 1;
                self.is_clean = false;
            }
            EdgeClass::Dynamic => {
                self.dynamic += 1;
                self.is_clean = false;
            }
            EdgeClass::MaybeDynamic => {
                self.maybe_dynamic += 1;
                self.is_clean = false;
            }
            EdgeClass::Unsettled => self.is_clean = false,
        }
    }
}

// Counts the classes of the first nodes in the change that was found last.
pub(crate) fn count_classes(nodes: u32, change: &ChangeRoom) -> Classes
    requires nodes { nodes ≤ most_variables }
    requires start { nodes ≤ length change.now.start.items }
    requires ends { nodes ≤ length change.now.ends.items }
    requires told { nodes ≤ length change.now.edges.told.items }
    requires counts { nodes ≤ length change.now.edges.counts.items }
    ensures { result ≡ classes_of
        (map (class_at (change_of change.now)) (range_with_len 0 nodes)) }
{
    let mut classes = Classes::new();
    for node in 0..nodes {
        let class = edge_class(
            change.start[node as usize],
            change.ends[node as usize],
            change.edges.range(node),
        );
        classes.count(class);
    }
    classes
}

/// How many changes are clean, have a hazard and are unsettled, and whether each that settles ends in a state that was found.
#[derive(Clone, Copy)]
pub struct Totals {
    pub clean: u64,
    pub hazards: u64,
    pub unsettled: u64,
    pub is_whole: bool,
}

impl Totals {
    // Those of no change.
    pub(crate) fn new() -> Totals
        ensures { result ≡ no_totals }
    {
        Totals {
            clean: 0,
            hazards: 0,
            unsettled: 0,
            is_whole: true,
        }
    }

    // How many changes there are.
    pub(crate) fn changes(&self) -> u64
        requires { changes_in self.now ≤ most_changes }
        ensures { result ≡ changes_in self.now }
    {
        self.clean + (self.hazards + self.unsettled)
    }

    // Counts a change that settles, by whether it is clean and whether its state was found.
    pub(crate) fn count_settled(&mut self, is_clean: bool, is_found: bool)
        requires { changes_in self.old < most_changes }
        ensures { self.new ≡ counted self.old (count_if is_clean) is_found }
    {
        if is_clean {
            self.clean += 1;
        } else {
            self.hazards += 1;
        }
        self.is_whole &= is_found;
    }

    // Counts a change that leaves a variable unsettled.
    pub(crate) fn count_unsettled(&mut self)
        requires { changes_in self.old < most_changes }
        ensures { (is_found : Bool) → self.new ≡ counted self.old NotSettled is_found }
    {
        self.unsettled += 1;
    }
}
