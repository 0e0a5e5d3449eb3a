// The order of the statements of a run text.

ghost use Rattle.std.specs.Prelude.{◌≡◌};
ghost use Rattle.hz_run_text.specs.declared.order.Place.TheVariants as at;
ghost use Rattle.hz_run_text.specs.RunResolution.{run_resolution_of, numbered_run_resolutions};
ghost use Rattle.hz_run_text.specs.RunOrder.{place_after, line_at_stop, first_misplaced};
ghost use Rattle.hz_run_text.specs.RunFault.{is_start_line, is_input_line};
ghost use Rattle.hz_run_text.specs.RunBuilt.{format_in, is_end};

use crate::format::Format;
use crate::statement::{RunEntry, RunHeld};

/// Where one is in a run text: before its header, the size of the network, the start, the input or the first run, in a run's
/// lead, in its cycle, or behind the end.
#[derive(Clone, Copy, Debug)]
pub(crate) enum Place {
    Header,
    Net,
    Start,
    Input,
    Runs,
    Lead,
    Cycle,
    Over,
}

// The line that breaks the order of a text first. It is 0 if none does and the text stops before its end.
pub(crate) fn first_out_of_order(entries: &[RunEntry]) -> Option<u32>
    ensures { result ≡ first_misplaced at.Header (numbered_run_resolutions entries.now) }
{
    let mut place = Place::Header;
    for entry in entries {
        let Some(next) = place_after(place, &entry.held) else {
            return Some(entry.line);
        };
        place = next;
    }
    line_at_stop(place)
}

// The line that breaks the order where a text stops.
fn line_at_stop(place: Place) -> Option<u32>
    ensures { result ≡ line_at_stop place }
{
    match place {
        Place::Over => None,
        _ => Some(0),
    }
}

// Where one is behind a statement, if it may stand at this place.
fn place_after(place: Place, held: &RunHeld) -> Option<Place>
    ensures { result ≡ place_after place (run_resolution_of held.now) }
{
    match place {
        Place::Header => place_after_header(held),
        Place::Net => place_after_net(held),
        Place::Start => place_after_start(held),
        Place::Input => place_after_input(held),
        Place::Runs => place_before_runs(held),
        Place::Lead => place_in_lead(held),
        Place::Cycle => place_in_cycle(held),
        Place::Over => None,
    }
}

fn place_after_header(held: &RunHeld) -> Option<Place>
    ensures { result ≡ place_after at.Header (run_resolution_of held.now) }
{
    match held {
        RunHeld::Header(Format::One) => Some(Place::Start),
        RunHeld::Header(Format::Two) => Some(Place::Net),
        _ => None,
    }
}

fn place_after_net(held: &RunHeld) -> Option<Place>
    ensures { result ≡ place_after at.Net (run_resolution_of held.now) }
{
    match held {
        RunHeld::Net(_) => Some(Place::Start),
        _ => None,
    }
}

fn place_after_start(held: &RunHeld) -> Option<Place>
    ensures { result ≡ place_after at.Start (run_resolution_of held.now) }
{
    match held {
        RunHeld::Start(_) => Some(Place::Input),
        _ => None,
    }
}

fn place_after_input(held: &RunHeld) -> Option<Place>
    ensures { result ≡ place_after at.Input (run_resolution_of held.now) }
{
    match held {
        RunHeld::Input(_) => Some(Place::Runs),
        _ => None,
    }
}

fn place_before_runs(held: &RunHeld) -> Option<Place>
    ensures { result ≡ place_after at.Runs (run_resolution_of held.now) }
{
    match held {
        RunHeld::Run => Some(Place::Lead),
        RunHeld::End => Some(Place::Over),
        _ => None,
    }
}

fn place_in_lead(held: &RunHeld) -> Option<Place>
    ensures { result ≡ place_after at.Lead (run_resolution_of held.now) }
{
    match held {
        RunHeld::Run => Some(Place::Lead),
        RunHeld::Step(_) => Some(Place::Lead),
        RunHeld::StepOfOne(_) => Some(Place::Lead),
        RunHeld::Cycle => Some(Place::Cycle),
        RunHeld::End => Some(Place::Over),
        _ => None,
    }
}

fn place_in_cycle(held: &RunHeld) -> Option<Place>
    ensures { result ≡ place_after at.Cycle (run_resolution_of held.now) }
{
    match held {
        RunHeld::Run => Some(Place::Lead),
        RunHeld::Step(_) => Some(Place::Cycle),
        RunHeld::StepOfOne(_) => Some(Place::Cycle),
        RunHeld::End => Some(Place::Over),
        _ => None,
    }
}

// The format of a text whose first statement this is.
pub(crate) fn format_in(held: &RunHeld) -> Option<Format>
    ensures { result ≡ format_in (run_resolution_of held.now) }
{
    match held {
        RunHeld::Header(format) => Some(*format),
        _ => None,
    }
}

pub(crate) fn is_start_line(held: &RunHeld) -> bool
    ensures { result ≡ is_start_line (run_resolution_of held.now) }
{
    matches!(held, RunHeld::Start(_))
}

pub(crate) fn is_input_line(held: &RunHeld) -> bool
    ensures { result ≡ is_input_line (run_resolution_of held.now) }
{
    matches!(held, RunHeld::Input(_))
}

pub(crate) fn is_end(held: &RunHeld) -> bool
    ensures { result ≡ is_end (run_resolution_of held.now) }
{
    matches!(held, RunHeld::End)
}
