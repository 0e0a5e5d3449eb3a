//! The report of an exploration.
ghost use Rattle.std.specs.Prelude.{◌≡◌, ◌+◌, ◌<◌, ◌≤◌, ℕ, Bool, false, List, [], ◌∷◌, ◌++◌, length, All};
ghost use Rattle.std.specs.List.{flat_map};
ghost use Rattle.hz_core.specs.Netlist.{IsCircuit, Netlist};
ghost use Rattle.hz_net.specs.Network.{network_of};
ghost use Rattle.hz_net.specs.Starts.{IsStableStart};
ghost use Rattle.hz_net.specs.Variables.{expansion_of};
ghost use Rattle.hz_free.specs.Feedback.{AreFeedbackCycles};
ghost use Rattle.hz_options.specs.Numbers.{IsCap};
ghost use Rattle.hz_timing.specs.TimedText.{IsTimedScriptFor};
ghost use Rattle.hz_write.specs.Writer.{Writes, has_failed};
ghost use Rattle.hz_write.specs.Writes.{Wrote};
ghost use Rattle.hz_report.specs.Report.{head_text};
ghost use Rattle.hz_refusal.specs.Ends.{Ends};
ghost use Rattle.hz_states.specs.States.{state_at};
ghost use Rattle.hz_explore.specs.Limits.{most_states};
ghost use Rattle.hz_explore.specs.Bursts.{applies};
ghost use Rattle.hz_explore.specs.Reached.{nodes_of};
ghost use Rattle.hz_explore.specs.Transitions.{Transition, ends_of};
ghost use Rattle.hz_explore.specs.Exploration.{Explored, IsExploration, all_nodes, found_by};
ghost use Rattle.hz_explore.specs.ExploreText.{all_explored_text, exploration_text, explored_text, totals_line, transition_line};
ghost use Rattle.hz_explore.specs.ExploreReports.{ReportsExploring};
ghost use Rattle.hz_explore.specs.Inside.{IsCounted, IsExploreRoom, IsExploring, Makes, bursts_in, changes_in, most_changes};
ghost use Rattle.hz_explore.specs.Progress.{Extends, no_totals};

use crate::bursts::{Bursts, applies};
use crate::lines::{Taken, write_made, write_nodes, write_totals};
use crate::room::{ExploreRoom, MOST_STATES};
use hz_edge_reports::{Making, changes_exist};
use hz_free::Free;
use hz_net::Net;
use hz_options::Options;
use hz_outside::{PutFault, Sink};
use hz_reach::run_ends;
use hz_refusal::{Status, status_after};
use hz_report::write_head;
use hz_timing::TimedScript;
use hz_write::Writer;
use std::alloc::Global;

/// What all changes of an exploration have in common: what they are made with, and the bursts.
#[derive(Clone, Copy)]
pub(crate) struct Exploring<'a> {
    making: Making<'a>,
    bursts: &'a Bursts<'a>,
}

// Writes the report of the exploration from the only start of a script.
pub(crate) fn report<K: Sink>(
    alloc: Global,
    net: &Net,
    script: &TimedScript,
    start: &[bool],
    options: Options,
    out: &mut K,
) -> Status
    requires circuit { IsCircuit net.now }
    requires script { IsTimedScriptFor net.now script.now }
    requires one { length script.now.parts ≡ 1 }
    requires start { IsStableStart net.now start.now }
    requires cap { IsCap options.cap }
    ensures { Ends K.output K.faults
        (ReportsExploring options net.now (start.now ∷ []) script.now) out.old out.new result }
{
    net.keeps_shape();
    let Ok(free) = Free::build(alloc, net) else {
        return Status::Memory;
    };
    let Ok(bursts) = Bursts::new(alloc, net, script.part(0)) else {
        return Status::Memory;
    };
    let Ok(mut room) = ExploreRoom::new(alloc, net, start) else {
        return Status::Memory;
    };
    let making = Making {
        alloc,
        net,
        free: &free,
        assumptions: script.assumptions(),
        cap: options.cap,
    };
    let exploring = Exploring {
        making,
        bursts: &bursts,
    };
    let written = write_report(&exploring, start, &mut room, out);
    status_after(written, Status::Done)
}

// Writes the lines of an exploration, whose room has the start alone.
fn write_report<K: Sink>(
    exploring: &Exploring,
    start: &[bool],
    room: &mut ExploreRoom,
    out: &mut K,
) -> Result<(), PutFault>
    requires exploring { IsExploring exploring.now }
    requires start { IsStableStart exploring.now.making.net.now start.now }
    requires room { IsExploreRoom exploring.now.making.net.now room.old }
    requires states { room.old.states ≡ nodes_of exploring.now.making.net.now start.now ∷ [] }
    requires totals { room.old.totals ≡ no_totals }
    ensures { (cycles : List (List ℕ)) × (explored : List Explored)
        × AreFeedbackCycles (network_of exploring.now.making.net.now) cycles
        × IsExploration exploring.now.making.net.now exploring.now.making.cap exploring.now.making.assumptions.now
        (bursts_in exploring.now.bursts.now) start.now explored
        × Wrote K.output K.faults
        (head_text exploring.now.making.net.now cycles start.now
        ++ exploration_text exploring.now.making.net.now exploring.now.making.assumptions.now explored)
        out.old out.new result }
{
    let mut writer = Writer::new(out);
    write_head(
        &mut writer,
        exploring.making.net,
        exploring.making.free,
        start,
    );
    write_states(&mut writer, exploring, room);
    write_last(&mut writer, room);
    writer.finish()
}

// Writes the states with their changes, in the order in which they are found. Once the output failed, or memory ran out, no state is
// looked at.
fn write_states<K: Sink>(writer: &mut Writer<'_, K>, exploring: &Exploring, room: &mut ExploreRoom)
    requires exploring { IsExploring exploring.now }
    requires room { IsExploreRoom exploring.now.making.net.now room.old }
    requires one { length room.old.states ≡ 1 }
    requires long { length (state_at room.old.states 0) ≡ length exploring.now.making.net.now.names }
    requires stable { IsStableStart exploring.now.making.net.now
        (expansion_of exploring.now.making.net.now (state_at room.old.states 0)) }
    requires totals { room.old.totals ≡ no_totals }
    ensures gave { (explored : List Explored)
        × IsExploration exploring.now.making.net.now exploring.now.making.cap exploring.now.making.assumptions.now
        (bursts_in exploring.now.bursts.now)
        (expansion_of exploring.now.making.net.now (state_at room.old.states 0)) explored
        × Writes K.output K.faults
        (all_explored_text exploring.now.making.net.now exploring.now.making.assumptions.now (all_nodes explored) 1 explored)
        writer.old writer.new
        × (has_failed writer.new ≡ false → IsCounted exploring.now.making.net.now explored room.new) }
    ensures few { changes_in room.new.totals ≤ most_changes }
{
    // The laws say that the changes which are left out have an outcome.
    exploring.making.net.keeps_shape();
    changes_exist();
    run_ends();
    for number in 0..MOST_STATES {
        if writer.has_failed() {
            return;
        }
        if number as usize >= room.states.len() {
            return;
        }
        write_state(writer, exploring, room, number);
    }
}

// Writes a state and its changes.
fn write_state<K: Sink>(
    writer: &mut Writer<'_, K>,
    exploring: &Exploring,
    room: &mut ExploreRoom,
    number: u32,
)
    requires exploring { IsExploring exploring.now }
    requires room { IsExploreRoom exploring.now.making.net.now room.old }
    requires number { number < length room.old.states }
    requires states { length room.old.states ≤ most_states }
    requires long { length (state_at room.old.states number)
        ≡ length exploring.now.making.net.now.names }
    requires stable { IsStableStart exploring.now.making.net.now
        (expansion_of exploring.now.making.net.now (state_at room.old.states number)) }
    requires few { changes_in room.old.totals + length (bursts_in exploring.now.bursts.now)
        ≤ most_changes }
    ensures gave { (transitions : List Transition)
        × Makes exploring.now.making.net.now exploring.now.making.cap exploring.now.making.assumptions.now (bursts_in exploring.now.bursts.now)
        (expansion_of exploring.now.making.net.now (state_at room.old.states number)) transitions room.old
        room.new (has_failed writer.new)
        × ((all : List (List Bool)) →
        Extends (found_by room.old.states (ends_of exploring.now.making.net.now transitions)) all →
        Writes K.output K.faults
        (explored_text exploring.now.making.net.now exploring.now.making.assumptions.now all (number + 1)
        (record { nodes = state_at room.old.states number; transitions = transitions }))
        writer.old writer.new) }
    ensures room { IsExploreRoom exploring.now.making.net.now room.new }
    ensures few { changes_in room.new.totals
        ≤ changes_in room.old.totals + length (bursts_in exploring.now.bursts.now) }
{
    room.go_to(exploring.making.net, number);
    write_nodes(
        writer,
        exploring.making.net,
        number + 1,
        room.nodes.as_slice(),
    );
    write_changes(writer, exploring, room, number + 1);
}

// Makes the changes from a state, one for each burst that applies to it, and writes their lines.
fn write_changes<K: Sink>(
    writer: &mut Writer<'_, K>,
    exploring: &Exploring,
    room: &mut ExploreRoom,
    number: u32,
)
    requires exploring { IsExploring exploring.now }
    requires room { IsExploreRoom exploring.now.making.net.now room.old }
    requires start { IsStableStart exploring.now.making.net.now room.old.start.items }
    requires states { length room.old.states ≤ most_states }
    requires few { changes_in room.old.totals + length (bursts_in exploring.now.bursts.now)
        ≤ most_changes }
    ensures gave { (transitions : List Transition)
        × Makes exploring.now.making.net.now exploring.now.making.cap exploring.now.making.assumptions.now (bursts_in exploring.now.bursts.now)
        room.old.start.items transitions room.old room.new (has_failed writer.new)
        × ((all : List (List Bool)) →
        Extends (found_by room.old.states (ends_of exploring.now.making.net.now transitions)) all →
        Writes K.output K.faults
        (flat_map (transition_line exploring.now.making.net.now exploring.now.making.assumptions.now all number) transitions)
        writer.old writer.new) }
    ensures room { IsExploreRoom exploring.now.making.net.now room.new }
    ensures few { changes_in room.new.totals
        ≤ changes_in room.old.totals + length (bursts_in exploring.now.bursts.now) }
{
    // The laws say that the changes which are left out have an outcome.
    exploring.making.net.keeps_shape();
    changes_exist();
    for place in 0..exploring.bursts.len() {
        if writer.has_failed() {
            return;
        }
        let burst = exploring.bursts.get(place);
        write_change(writer, exploring, room, &Taken { number, burst });
    }
}

// Makes the change of a burst, if it applies, and writes its line. If memory runs out, nothing more is written.
fn write_change<K: Sink>(
    writer: &mut Writer<'_, K>,
    exploring: &Exploring,
    room: &mut ExploreRoom,
    taken: &Taken,
)
    requires exploring { IsExploring exploring.now }
    requires burst { All (λ pair. pair.0 < exploring.now.making.net.now.inputs) taken.now.burst.now }
    requires room { IsExploreRoom exploring.now.making.net.now room.old }
    requires start { IsStableStart exploring.now.making.net.now room.old.start.items }
    requires states { length room.old.states ≤ most_states }
    requires few { changes_in room.old.totals < most_changes }
    ensures gave { (transitions : List Transition)
        × Makes exploring.now.making.net.now exploring.now.making.cap
        exploring.now.making.assumptions.now (taken.now.burst.now ∷ [])
        room.old.start.items transitions room.old room.new (has_failed writer.new)
        × ((all : List (List Bool)) →
        Extends (found_by room.old.states (ends_of exploring.now.making.net.now transitions)) all →
        Writes K.output K.faults
        (flat_map (transition_line exploring.now.making.net.now exploring.now.making.assumptions.now
        all taken.now.number) transitions)
        writer.old writer.new) }
    ensures room { IsExploreRoom exploring.now.making.net.now room.new }
    ensures few { changes_in room.new.totals ≤ changes_in room.old.totals + 1 }
    ensures start { room.new.start ≡ room.old.start }
{
    // The law says that the change comes to something, also if memory is too short to find it.
    exploring.making.net.keeps_shape();
    changes_exist();
    if !applies(room.start.as_slice(), taken.burst) {
        return;
    }
    match room.make(&exploring.making, taken.burst) {
        Ok(made) => write_made(writer, &exploring.making, taken, &made, &room.change),
        Err(_) => writer.give_up(),
    }
}

// Writes the last line, if all lines before it are written.
fn write_last<K: Sink>(writer: &mut Writer<'_, K>, room: &ExploreRoom)
    requires few { changes_in room.now.totals ≤ most_changes }
    ensures { (netlist : Netlist) (explored : List Explored) →
        (has_failed writer.old ≡ false → IsCounted netlist explored room.now) →
        Writes K.output K.faults (totals_line netlist explored) writer.old writer.new }
{
    if writer.has_failed() {
        return;
    }
    write_totals(writer, room.states.len(), room.totals);
}
