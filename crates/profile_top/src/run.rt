//! The command `run`: a trace is run on the plant, by threads.

ghost use Rattle.std.specs.Prelude.{◌≡◌, ◌<◌, ◌≤◌, IsTrue, None, Ok, length, IfOk, OnOk};
ghost use Rattle.tag_model.specs.Index.{program_shape};
ghost use Rattle.trace.specs.Formed.{IsFormedTrace};
ghost use Rattle.round_check.specs.Walk.{rounds_of};
ghost use Rattle.trace_play.specs.Answer.{checked_answer, run_answer};
ghost use Rattle.trace_play.specs.Play.{trace_played};
ghost use Rattle.profile_top.specs.Answers.{Gives};
ghost use Rattle.profile_top.specs.Commands.{IsRunnable, RunLeaves, written_of};
ghost use Rattle.trace_run.specs.Runs.{HasRun};

use crate::answer::{Answer, refusal};
use crate::check::checked_trace;
use plant::Plant;
use round_worker::Gate;
use std::alloc::{AllocError, Global};
use std::sync::Wait;
use std::thread::Threads;
use tag_section::Sections;
use trace::Trace;
use trace_run::{RunError, run};

// What a trace prints, or the `load` line that is refused, whose code names no module.
fn trace_answer<R: Threads + Wait + Sync, G: Gate + Sync>(
    rt: &R,
    alloc: Global,
    plant: &mut Plant,
    gate: &G,
    trace: Trace,
) -> Result<Answer, AllocError>
    requires fresh { IsTrue plant.old.fresh }
    requires shape { plant.old.shape ≡ program_shape }
    requires formed { IsFormedTrace trace }
    requires passes { rounds_of trace ≡ Ok tt }
    ensures answer { IfOk result (λ answer. Gives answer (written_of (checked_answer None trace (Ok tt)))) }
    ensures plant { OnOk result (HasRun (trace_played trace None).played.machine plant.old plant.new) }
{
    let mut text = Vec::new(alloc);
    match run(rt, alloc, plant, gate, trace, None, &mut text) {
        Ok(()) => Ok(Answer { status: 0, text }),
        Err(RunError::Refused { line, code }) => refusal(alloc, &Sections::new(alloc), line, code),
        Err(RunError::Memory(error)) => Err(error),
    }
}

/// The answer to `run`.
pub(crate) fn run_answer<R: Threads + Wait + Sync, G: Gate + Sync>(
    rt: &R,
    alloc: Global,
    plant: &mut Plant,
    gate: &G,
    input: &[u8],
) -> Result<Answer, AllocError>
    requires fresh { IsTrue plant.old.fresh }
    requires shape { plant.old.shape ≡ program_shape }
    requires within { length input.now ≤ 4194304 }
    ensures answer { IfOk result (λ answer. Gives answer (written_of (run_answer None input.now))) }
    ensures status { IfOk result (λ answer. answer.status < 2) }
    ensures leaves { OnOk result (RunLeaves input.now plant.old plant.new) }
    ensures not_run { ¬ IsRunnable input.now → plant.new ≡ plant.old }
{
    match checked_trace(alloc, input)? {
        Ok(trace) => trace_answer(rt, alloc, plant, gate, trace),
        Err(answer) => Ok(answer),
    }
}
