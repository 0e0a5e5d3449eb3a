//! Orders between the wires of a gate: how often each variable may change along the runs that keep them.
//!
//! | Module | What lives in it |
//! |---|---|
//! | `order` | [`Order`]: the second wire does not change for the n-th time before the first has changed |
//! | `table` | [`count_under`]: how often a gate changes at most along what keeps its orders |
//! | `positions` | a list of positions |
//! | `tabled` | [`with_tables`]: the orders whose gates have tables |
//! | `telling` | [`tell_under`]: words of all variables under orders |
//! | `driven` | how many changes are enough for a variable, and whether what it is told is enough |
//! | `component` | the order in which words are raised |
//! | `ideal` | [`add_following`]: the orders that follow from an ideal wire |
//! | `ends` | [`ends_under`]: what a change comes to under orders |
//! | `laws` | what holds along runs that keep orders |
//! | `kept` | [`kept_run`]: the run, if one was found |
//! | `search` | the search for it, of which nothing is promised |
//! | `joint` | steps of several variables, which may change together though none may change alone |
//! | `holding` | which orders hold a variable back |
//! | `rest` | whether steps are a run that comes to rest |
//! | `check` | whether a run keeps orders |
//! | `tables` | numbers and marks that are read and set without a fault |
#![tactic(auto)]

mod check;
mod component;
mod driven;
mod ends;
mod holding;
mod ideal;
mod joint;
mod kept;
mod laws;
mod order;
mod positions;
mod rest;
mod search;
mod table;
mod tabled;
mod tables;
mod telling;

pub use ends::ends_under;
pub use ideal::add_following;
pub use kept::kept_run;
pub use laws::{
    gate_bounds, ideal_wires_keep, inductive_under_orders, kept_outcomes_refine, ordered_covers,
    prefixes_keep, used_by_b,
};
pub use order::{Order, is_used};
pub use table::{OrderedGate, count_under};
pub use tabled::with_tables;
pub use telling::{OrderedChange, tell_under};
