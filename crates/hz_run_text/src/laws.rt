//! A law on printed run texts.

ghost use Rattle.hz_run_text.specs.RunReadBack.{PrintedRunsAreRead};

/// What is printed of a run text of a circuit's network has no fault, and stands for the run text.
pub fn printed_runs_are_read()
    ensures { PrintedRunsAreRead }
{}
