//! What a line of a schedule asks of the core.

ghost use Rattle.std.specs.Prelude.{◌≡◌};
ghost use Rattle.step_play.specs.Acts.{actor_of, op_of, code_of};

use core_steps::{Actor, Op, StepRefused};
use trace::{Code, StepActor, StepOp};

/// The actor that takes the steps.
pub(crate) fn actor_of(actor: StepActor) -> Actor
    ensures { result ≡ actor_of actor }
{
    match actor {
        StepActor::Cpu(cpu) => Actor::Cpu(cpu),
        StepActor::Manager => Actor::Manager,
    }
}

/// The op that is queued.
pub(crate) fn op_of(op: StepOp) -> Op
    ensures { result ≡ op_of op }
{
    match op {
        StepOp::Open {
            key,
            section,
            index,
            size,
        } => Op::Open {
            key,
            section,
            index,
            size,
        },
        StepOp::Close { key } => Op::Close { key },
        StepOp::Split { key, parts, first } => Op::Split { key, parts, first },
        StepOp::Swap { one, two } => Op::Swap { one, two },
        StepOp::Trim { key, bytes } => Op::Trim { key, bytes },
        StepOp::Enter { section } => Op::Enter { section },
        StepOp::Leave { section } => Op::Leave { section },
        StepOp::Load { section } => Op::Load { section },
        StepOp::Unload { section } => Op::Unload { section },
        StepOp::Clean => Op::Clean,
    }
}

/// The code of a refused step.
pub(crate) fn code_of(why: StepRefused) -> Code
    ensures { result ≡ code_of why }
{
    match why {
        StepRefused::NoStep => Code::NoStep,
        StepRefused::ListHeld => Code::Held,
        StepRefused::NotLive(key) => Code::NotLive(key),
        StepRefused::KeyUsed(key) => Code::KeyUsed(key),
        StepRefused::NotRunning(section) => Code::NotRunning(section),
        StepRefused::Inside(section) => Code::Inside(section),
        StepRefused::NotLoaded(section) => Code::NotLoaded(section),
        StepRefused::AlreadyLoaded(section) => Code::AlreadyLoaded(section),
        StepRefused::Busy(users) => Code::Busy(users),
        StepRefused::Full => Code::Full,
        StepRefused::NoRoom => Code::NoRoom,
        StepRefused::Uneven => Code::Uneven,
        StepRefused::TooSmall => Code::TooSmall,
    }
}
