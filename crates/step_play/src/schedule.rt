//! A schedule from its first line to its last.

ghost use Rattle.std.specs.Prelude.{◌≡◌, ◌≤◌, IfOk};
ghost use Rattle.step_text.specs.StepForm.{AreSteps};
ghost use Rattle.step_play.specs.Schedule.{shape_of, schedule_of, setting_of};
ghost use Rattle.step_play.specs.Playing.{Ends};

use crate::play::play;
use core_steps::Core;
use std::alloc::{AllocError, Global};
use tag_model::{KERNEL_TAGS, Shape};
use trace::{Code, Steps, TextError};

/// How a schedule ended: with all that it wrote, or at the first line that is refused.
#[derive(Debug, Drop)]
pub enum End {
    Text(Vec<u8>),
    Refused { line: u32, code: Code },
}

/// A schedule that was played: the core that it left, and how it ended.
#[derive(Drop)]
pub struct Run {
    pub core: Core,
    pub end: End,
}

/// The sizes of a schedule's machine. No frame and no vector is used.
fn shape_of(cpus: u32, area: u32) -> Shape
    requires { area ≤ 896 }
    ensures { result ≡ shape_of cpus area }
{
    Shape {
        cpus,
        tags: KERNEL_TAGS + area,
        kernel_tags: KERNEL_TAGS,
        frames: 0,
        vectors: 0,
    }
}

/// Plays a schedule on a fresh core.
pub fn run_schedule(alloc: Global, steps: Steps) -> Result<Run, AllocError>
    requires formed { AreSteps steps }
    ensures meaning { IfOk result (λ run. Ends (setting_of steps) run.core run.end (schedule_of steps)) }
    ensures sections { IfOk result (λ run. run.core.sections ≡ steps.sections) }
{
    let Steps {
        cpus,
        area,
        sections,
        body,
    } = steps;
    let mut core = Core::new(alloc, shape_of(cpus, area), sections)?;
    let mut out = Vec::new(alloc);
    match play(alloc, &mut core, body.as_slice(), &mut out) {
        Ok(()) => Ok(Run {
            core,
            end: End::Text(out),
        }),
        Err(TextError::Refused { line, code }) => Ok(Run {
            core,
            end: End::Refused { line, code },
        }),
        Err(TextError::Memory(error)) => Err(error),
    }
}
