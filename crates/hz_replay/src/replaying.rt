//! The job `replay`: the runs of a run text, step by step.
ghost use Rattle.std.specs.Prelude.{◌≡◌, ◌+◌, ◌≤◌, length, All, IfOk, IfSome, MatchOption, MatchResult};
ghost use Rattle.std.specs.Option.{option_map};
ghost use Rattle.hz_net.specs.Network.{network_of, IsState};
ghost use Rattle.hz_net.specs.Variables.{expansion_of};
ghost use Rattle.hz_gmw.specs.Cycles.{IsNontransient};
ghost use Rattle.hz_run_text.specs.RunText.{IsRunTextFor};
ghost use Rattle.hz_replay.specs.Named.{named_variable, NamesVariable};
ghost use Rattle.hz_replay.specs.Replaying.{steps_of, AreAccepted, IsAcceptedRun, IsRefusalOfText, IsRefusedRun, IsRefusedStep, IsFirstRefusal};
ghost use Rattle.hz_replay.specs.ReplayerSteps.{AreVariables, run_of, KeepsInitialState, MakesSteps, IsRefusedFrom};
ghost use Rattle.hz_run_text.specs.Limits.{most_steps};

use crate::verdict::{put_no, put_yes};
use hz_core::Memory;
use hz_gmw::{CycleFault, Replay, Run, StepFault};
use hz_net::Net;
use hz_outside::Sink;
use hz_refusal::{OnRuns, Status, status_after};
use hz_run_text::RunText;
use std::alloc::Global;

/// Why `replay` refuses a run of a text.
#[derive(Clone, Copy, Debug)]
pub enum RunRefusal {
    /// The step with this number is no step. Steps are counted from 1 through the lead and the cycle.
    Step { number: usize, fault: StepFault },
    /// The cycle is no nontransient cycle.
    Cycle { fault: CycleFault },
}

/// The first step of some steps that is refused. Steps are counted from 1.
#[derive(Clone, Copy, Debug)]
pub(crate) struct RefusedStep {
    pub number: usize,
    pub fault: StepFault,
}

/// The first refusal of a text, that of the run with this number. Runs are counted from 1.
#[derive(Clone, Copy, Debug)]
pub(crate) struct FirstRefusal {
    pub run: usize,
    pub why: RunRefusal,
}

/// The job `replay`.
#[derive(Drop)]
pub struct Replays;

impl OnRuns for Replays {
    ghost use Rattle.hz_replay.specs.Verdict.{IsReplayOutcome};

    ghost judges = { λ _. IsReplayOutcome };

    fn with_runs<K: Sink>(&self, alloc: Global, net: &Net, runs: &RunText, out: &mut K) -> Status {
        match first_refusal(alloc, net, runs) {
            Ok(None) => status_after(put_yes(out, runs), Status::Done),
            Ok(Some(refused)) => {
                status_after(put_no(out, net, refused.run, refused.why), Status::No)
            }
            Err(Memory) => Status::Memory,
        }
    }
}

// The first refusal of the runs of a text, if one is refused.
pub(crate) fn first_refusal(
    alloc: Global,
    net: &Net,
    runs: &RunText,
) -> Result<Option<FirstRefusal>, Memory>
    requires { IsRunTextFor net.now runs.now }
    ensures outcome { IfOk result (λ first. MatchOption first (AreAccepted net.now runs.now)
        (λ refused. IsRefusalOfText net.now runs.now refused.run refused.why)) }
    ensures named { IfOk result
        (λ first. IfSome first (λ refused. NamesVariable net.now (named_variable refused.why))) }
{
    let start = expand_start(alloc, net, runs.nodes())?;
    let mut replay = Replay::new(alloc, net)?;
    match replay_runs(&mut replay, runs, start.as_slice()) {
        Ok(()) => Ok(None),
        Err(refused) => Ok(Some(refused)),
    }
}

// The state in which each node has its bit and each wire its source's.
fn expand_start(alloc: Global, net: &Net, nodes: &[bool]) -> Result<Vec<bool>, Memory>
    requires { length nodes.now ≡ length net.now.names }
    ensures start { IfOk result (λ start. start.items ≡ expansion_of net.now nodes.now) }
    ensures long { IfOk result (λ start. IsState net.now start.items) }
{
    let mut start = vec![in alloc; false; net.len() as usize]?;
    net.expand(nodes, start.as_mut_slice());
    Ok(start)
}

// Replays the runs of a text, each from the start. The first begins there, and each goes back over what the one before it
// changed.
fn replay_runs(replay: &mut Replay, text: &RunText, start: &[bool]) -> Result<(), FirstRefusal>
    requires text { IsRunTextFor replay.old.circuit text.now }
    requires start { IsState replay.old.circuit start.now }
    ensures { MatchResult result
        (λ _. All (IsAcceptedRun (network_of replay.old.circuit) text.now.input start.now)
        text.now.runs)
        (λ refused. IsFirstRefusal (network_of replay.old.circuit) text.now.input start.now
        text.now.runs refused.run refused.why) }
{
    replay.begin(text.input(), start);
    for number in 0..text.runs() {
        replay.restart();
        match replay_run(replay, text.lead(number), text.cycle(number)) {
            Ok(()) => {}
            Err(why) => {
                return Err(FirstRefusal {
                    run: number + 1,
                    why,
                });
            }
        }
    }
    Ok(())
}

// Replays a run from the present state.
fn replay_run(replay: &mut Replay, lead: &Run, cycle: Option<&Run>) -> Result<(), RunRefusal>
    requires variables { AreVariables replay.old.circuit
        (steps_of (run_of lead.now.steps (option_map (λ run. run.now.steps) cycle))) }
    requires few { length
        (steps_of (run_of lead.now.steps (option_map (λ run. run.now.steps) cycle))) ≤ most_steps }
    ensures begin { KeepsInitialState replay.old replay.new }
    ensures outcome { MatchResult result
        (λ _. IsAcceptedRun (network_of replay.old.circuit) replay.old.input replay.old.state
        (run_of lead.now.steps (option_map (λ run. run.now.steps) cycle.entry)))
        (λ why. IsRefusedRun (network_of replay.old.circuit) replay.old.input replay.old.state
        (run_of lead.now.steps (option_map (λ run. run.now.steps) cycle.entry)) why) }
{
    match make_steps(replay, lead) {
        Ok(()) => {}
        Err(refused) => {
            return Err(RunRefusal::Step {
                number: refused.number,
                fault: refused.fault,
            });
        }
    }
    match cycle {
        Some(cycle) => replay_cycle(replay, cycle, lead.steps()),
        None => Ok(()),
    }
}

// Replays a cycle from the present state, after that many steps of its run.
fn replay_cycle(replay: &mut Replay, cycle: &Run, before: usize) -> Result<(), RunRefusal>
    requires variables { AreVariables replay.old.circuit cycle.now.steps }
    requires few { before + length cycle.now.steps ≤ most_steps }
    ensures begin { KeepsInitialState replay.old replay.new }
    ensures outcome { MatchResult result
        (λ _. IsNontransient (network_of replay.old.circuit) replay.old.input replay.old.state
        cycle.now.steps)
        (λ why. IsRefusedFrom before (network_of replay.old.circuit) replay.old.input
        replay.old.state cycle.now.steps why) }
{
    replay.mark();
    match make_steps(replay, cycle) {
        Ok(()) => {}
        Err(refused) => {
            return Err(RunRefusal::Step {
                number: before + refused.number,
                fault: refused.fault,
            });
        }
    }
    match replay.close() {
        Ok(()) => Ok(()),
        Err(fault) => Err(RunRefusal::Cycle { fault }),
    }
}

// Makes the steps of a run.
fn make_steps(replay: &mut Replay, run: &Run) -> Result<(), RefusedStep>
    requires { AreVariables replay.old.circuit run.now.steps }
    ensures begin { KeepsInitialState replay.old replay.new }
    ensures outcome { MatchResult result
        (λ _. MakesSteps replay.old replay.new run.now.steps)
        (λ refused. IsRefusedStep (network_of replay.old.circuit) replay.old.input replay.old.state
        run.now.steps refused.number refused.fault) }
{
    for index in 0..run.steps() {
        match replay.step(run.step(index)) {
            Ok(()) => {}
            Err(fault) => {
                return Err(RefusedStep {
                    number: index + 1,
                    fault,
                });
            }
        }
    }
    Ok(())
}
