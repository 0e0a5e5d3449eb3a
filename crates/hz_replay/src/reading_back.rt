//! A law on the runs that are printed: they replay.
ghost use Rattle.std.specs.Prelude.{◌≡◌, ◌≤◌, length};
ghost use Rattle.hz_core.specs.Netlist.{Netlist, IsCircuit};
ghost use Rattle.hz_net.specs.Network.{IsInput};
ghost use Rattle.hz_gmw.specs.RunRecord.{flip_count};
ghost use Rattle.hz_run_text.specs.RunPrinted.{run_text_printed};
ghost use Rattle.hz_run_text.specs.RunValue.{RunTextOf, all_steps};
ghost use Rattle.hz_replay.specs.Replaying.{AreAccepted};
ghost use Rattle.hz_replay.specs.RunTexts.{ReplaysAs};
ghost use Rattle.hz_run_text.specs.Limits.{most_steps};

use hz_run_text::printed_runs_are_read;

/// Runs of a network that begin at a start and stand under an input, each with a nontransient cycle at its end or with none,
/// are printed as a run text to which the job `replay` answers `yes`, with the counts of these runs. There may be no more
/// than 2,000,000 steps in all, and no more than 2,000,000 variables in steps.
pub fn accepted_runs_replay()
    ensures { (netlist : Netlist) (value : RunTextOf) → IsCircuit netlist →
        length value.nodes ≡ length netlist.names → IsInput netlist value.input →
        length (all_steps value.runs) ≤ most_steps →
        flip_count (all_steps value.runs) ≤ most_steps → AreAccepted netlist value →
        ReplaysAs netlist (run_text_printed netlist value) value.runs }
{
    printed_runs_are_read();
}
