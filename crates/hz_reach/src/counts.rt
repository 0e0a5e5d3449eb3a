//! Laws on how often runs change variables, for callers of `spread_run` and for other runs.
ghost use Rattle.hz_reach.specs.Counts.{FlipsAreChanges, StepsAreNoMoreThanFlips, FlipsPerVariable, FlipsPerUnknown, FlipsOfSpreadRun, EndsByChanges};

/// How many flips and steps a run has, by how often it changes each variable. So a run that changes no variable twice has
/// at most as many flips, and at most as many steps, as there are variables.
#[tactic(auto, using(crate::proofs::FlipCounts::flips_are_changes, crate::proofs::FlipCounts::steps_below_flips, crate::proofs::FlipCounts::flips_per_variable, crate::proofs::FlipCounts::flips_per_unknown))]
pub fn run_counts()
    ensures changes { FlipsAreChanges }
    ensures steps { StepsAreNoMoreThanFlips }
    ensures variables { FlipsPerVariable }
    ensures unknowns { FlipsPerUnknown }
{}

/// The spread run has one flip for each X of Algorithm A.
#[tactic(auto, using(crate::proofs::FlipCounts::flips_of_spread_run))]
pub fn spread_flips()
    ensures { FlipsOfSpreadRun }
{}

/// Where a run ends: a variable has the complement of its first value exactly if it has changed an odd number of times.
#[tactic(auto, using(crate::proofs::FlipCounts::ends_by_changes))]
pub fn run_ends()
    ensures { EndsByChanges }
{}
