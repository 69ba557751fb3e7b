//! The command `step`: plays a schedule.

ghost use Rattle.std.specs.Prelude.{◌≡◌, ◌≤◌, length, IfOk};
ghost use Rattle.step_text.specs.StepForm.{AreSteps};
ghost use Rattle.step_text.specs.StepReading.{steps_of};
ghost use Rattle.profile_top.specs.Answers.{Gives, step_played, step_read};

use crate::answer::{Answer, refusal};
use std::alloc::{AllocError, Global};
use step_play::{End, Run, run_schedule};
use tag_section::Sections;
use trace::{Steps, TextError, read_steps};

// What a schedule prints, or the first line that is refused.
fn schedule_answer(alloc: Global, steps: Steps) -> Result<Answer, AllocError>
    requires formed { AreSteps steps }
    ensures { IfOk result (λ answer. Gives answer (step_played steps)) }
{
    let Run { core, end } = run_schedule(alloc, steps)?;
    match end {
        End::Text(text) => Ok(Answer { status: 0, text }),
        End::Refused { line, code } => refusal(alloc, core.sections(), line, code),
    }
}

/// The answer to `step`.
pub(crate) fn step_answer(alloc: Global, input: &[u8]) -> Result<Answer, AllocError>
    requires { length input.now ≤ 4194304 }
    ensures { IfOk result (λ answer. Gives answer (step_read (steps_of input.now))) }
{
    match read_steps(alloc, input) {
        Ok(steps) => schedule_answer(alloc, steps),
        Err(TextError::Refused { line, code }) => refusal(alloc, &Sections::new(alloc), line, code),
        Err(TextError::Memory(error)) => Err(error),
    }
}
